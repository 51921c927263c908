use std::process::Abort;

/// Ends the test where this isn't so. A call of it is no branch of the caller, and so costs its proof less than an `assert!`.
pub fn see(rt: &impl Abort, so: bool, what: &str) {
    assert!(rt; so, "{what}");
}
