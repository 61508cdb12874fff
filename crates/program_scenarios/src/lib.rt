//! The scenarios of the program. Start with [`run_all`], which `cases` calls in its folder of data.
//!
//! They are about streams and files that no command line names; `serve` over sockets of the system; `serve --reload`, whose files are
//! replaced between looks; and the files and the sockets of the machine.
#![tactic(auto)]

mod clocks;
mod disk;
mod filing;
mod long_files;
mod looks;
mod programs;
mod services;
mod streams;

use scenario_outcomes::{Sums, run_scenarios};
use std::io;

/// Runs these scenarios, and prints a line for each.
pub fn run_all(sums: &mut Sums, rt: &HostRuntime) -> io::Result<()> {
    let alloc = rt.alloc();
    run_scenarios! { sums, rt;
        streams::output_that_is_not_taken_has_status_four(alloc);
        streams::a_complaint_that_is_not_taken_has_status_four(alloc);
        filing::certificates_that_are_written_are_accepted(alloc);
        filing::a_file_past_the_limit_is_given_up(alloc);
        services::serve_tells_where_it_listens_and_ends_after_its_turns(rt, alloc);
        services::serve_judges_its_files_before_it_listens(rt, alloc);
        services::serve_tells_that_it_cannot_listen(rt, alloc);
        services::serve_ends_where_its_address_is_not_taken(rt, alloc);
        looks::files_that_are_replaced_are_put_in_force(alloc);
        looks::files_that_do_not_fit_are_told_once(alloc);
        looks::files_that_do_not_fit_are_told_again_after_a_minute(alloc);
        looks::looks_whose_lines_are_not_taken_have_status_four(alloc);
        looks::a_message_that_could_come_where_it_is_forbidden_is_told(alloc);
        programs::a_file_that_is_written_is_read_back(rt);
        programs::a_long_file_is_compared_to_its_end(rt);
        long_files::a_long_file_is_read_to_its_end(rt);
        programs::a_file_that_is_not_there_is_unread(rt);
        programs::each_status_comes_of_files_of_the_machine(rt);
        programs::it_serves_at_a_port_that_is_free(rt);
        programs::it_does_not_listen_at_a_port_that_is_used(rt);
    }
}
