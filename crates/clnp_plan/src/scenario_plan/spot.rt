//! Where ports are, on which subnetwork and at which address there.
ghost use Rattle.std.specs.Prelude.{◌≡◌};
ghost use Rattle.clnp_plan.specs.ScenarioPlan.Standing.{is_port, is_rival, is_second, moved};

use crate::nsaps::Snpa;

/// Where the port of a system is that has this number: on a subnetwork, at an address there.
#[derive(Clone, Copy)]
pub struct Spot {
    pub system: u8,
    pub number: u8,
    pub subnet: u8,
    pub snpa: Snpa,
}

impl Spot {
    /// Whether it is the port of this number.
    pub fn is_port(&self, system: u8, number: u8) -> bool
        ensures { result ≡ is_port system number self.now }
    {
        self.system == system && self.number == number
    }

    /// Whether it is another port of the system, on this subnetwork.
    pub fn is_second(&self, system: u8, number: u8, subnet: u8) -> bool
        ensures { result ≡ is_second system number subnet self.now }
    {
        self.system == system && self.number != number && self.subnet == subnet
    }

    /// Whether it is another port, of any system, with this address on this subnetwork.
    pub fn is_rival(&self, system: u8, number: u8, subnet: u8, snpa: &Snpa) -> bool
        ensures { result ≡ is_rival system number subnet snpa.now self.now }
    {
        !self.is_port(system, number) && self.subnet == subnet && self.snpa == *snpa
    }

    /// The port, at its new place where it is the one of this number.
    pub fn moved(self, system: u8, number: u8, subnet: u8, snpa: Snpa) -> Spot
        ensures { result ≡ moved system number subnet snpa self }
    {
        if self.is_port(system, number) {
            Spot {
                subnet,
                snpa,
                ..self
            }
        } else {
            self
        }
    }
}
