//! The lines and the count of the scenarios that ran. Start with [`Sums`].

use crate::expectations::Unmet;
use std::io;

/// The number of scenarios that ran, and how many of them failed.
#[derive(Clone, Copy, Default, Drop)]
pub struct Sums {
    pub scenarios: u64,
    pub failed: u64,
}

impl Sums {
    /// Counts a scenario and prints its line: its name with `ok`, or with the expectation that was not met.
    pub fn record(
        &mut self,
        rt: &HostRuntime,
        name: &str,
        outcome: Result<(), Unmet>,
    ) -> io::Result<()> {
        self.scenarios = self.scenarios.saturating_add(1);
        match outcome {
            Ok(()) => println!(rt; "{name}: ok"),
            Err(unmet) => {
                self.failed = self.failed.saturating_add(1);
                println!(rt; "{name}: {unmet}")
            }
        }
    }

    /// Counts a scenario of a file and prints its line: its name with `ok` if `wrong` is empty, otherwise with `wrong`.
    pub fn record_text(&mut self, rt: &HostRuntime, name: &str, wrong: &str) -> io::Result<()> {
        self.scenarios = self.scenarios.saturating_add(1);
        if wrong.is_empty() {
            return println!(rt; "{name}: ok");
        }
        self.failed = self.failed.saturating_add(1);
        println!(rt; "{name}: {wrong}")
    }
}

/// Runs scenarios, each of which is called by its path, and prints a line for each under its name.
#[macro_export]
macro_rules! run_scenarios {
    ($sums:ident, $rt:ident; $($module:ident::$name:ident($($argument:expr),*);)*) => {{
        $($sums.record($rt, stringify!($name), $module::$name($($argument),*))?;)*
        Ok(())
    }};
}
