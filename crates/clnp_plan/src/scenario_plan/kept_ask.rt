//! How a unit is to be sent, as an event keeps it.
ghost use Rattle.std.specs.Prelude.{◌≡◌, IfOk, [], true};

use crate::Ask;
use crate::base::NoMemory;
use crate::options::OptionList;
use std::alloc::Global;
use std::marker::Model;

/// How a data unit is to be sent: an [`Ask`] that is small where it has no options, as most have none. A list of options
/// has room for 254 octets, and a scenario may have a million events.
///
/// A contract sees it as the `Ask`.
#[derive(Drop)]
pub struct KeptAsk {
    life: u8,
    report: bool,
    segment: bool,
    /// None stands for the list of no options.
    options: Option<Box<OptionList>>,
}

impl Model for KeptAsk {
    ghost use Rattle.std.specs.Prelude.{unwrap_or, option_map, []};
    ghost use Rattle.clnp_plan.specs.declared.ask.Ask.{Ask};

    ghost Value = { Ask };

    ghost view = { λ kept. record {
      life = kept.life;
      report = kept.report;
      segment = kept.segment;
      options = unwrap_or (option_map (λ options. options.value) kept.options) [];
    } };
}

impl KeptAsk {
    /// What keeps `ask`.
    ///
    /// # Errors
    ///
    /// `NoMemory`.
    pub fn of(alloc: Global, ask: &Ask) -> Result<KeptAsk, NoMemory>
        ensures { IfOk result (λ kept. kept ≡ ask.now) }
    {
        let options = if ask.options.as_bytes().is_empty() {
            None
        } else {
            Some(Box::new(alloc, ask.options)?)
        };
        Ok(KeptAsk {
            life: ask.life,
            report: ask.report,
            segment: ask.segment,
            options,
        })
    }

    /// How a unit of this lifetime is sent where no word says another thing: it is reported on, may be cut and has no
    /// options.
    pub fn usual(life: u8) -> KeptAsk
        ensures { result ≡ record { life = life; report = true; segment = true; options = [] } }
    {
        KeptAsk {
            life,
            report: true,
            segment: true,
            options: None,
        }
    }

    /// How the unit is to be sent.
    pub fn ask(&self) -> Ask
        ensures { result ≡ self.now }
    {
        Ask {
            life: self.life,
            report: self.report,
            segment: self.segment,
            options: match &self.options {
                Some(options) => **options,
                None => OptionList::new(),
            },
        }
    }
}
