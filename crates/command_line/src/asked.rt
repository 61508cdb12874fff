//! The commands of the program.

/// A command with its files, its options and its texts, as the command line gives them.
#[derive(Clone, Copy, PartialEq, Eq, Debug, Drop)]
pub enum Asked<'a> {
    /// Reports for each guarantee whether it holds. If `out` is given, writes the certificates to that file.
    Check {
        definitions: &'a str,
        guarantees: &'a str,
        out: Option<&'a str>,
    },
    /// Reports for each guarantee whether its certificate is accepted.
    Verify {
        definitions: &'a str,
        guarantees: &'a str,
        certificates: &'a str,
    },
    /// Runs a script. `definitions`, if given, replaces the built-in topology; `guarantees`, if given, are those that the broker runs
    /// under, by their `certificates`.
    Replay {
        script: &'a str,
        definitions: Option<&'a str>,
        guarantees: Option<&'a str>,
        certificates: Option<&'a str>,
    },
    /// Serves clients at the address `listen`, with the topology of `definitions`, under `guarantees` by their `certificates`.
    /// Stops after `turns` turns if given; reads the three files again every `reload` turns if given.
    Serve {
        definitions: &'a str,
        guarantees: &'a str,
        certificates: &'a str,
        listen: &'a str,
        turns: Option<&'a str>,
        reload: Option<&'a str>,
    },
    /// Reports the queues to which `key` leads from `exchange`, in the topology of `definitions`.
    Route {
        definitions: &'a str,
        exchange: &'a str,
        key: &'a str,
    },
}
