//! `adapter_tests` tries gs_port_system's objects, which no case of vectors can hold: the standard streams, files and a TCP listener,
//! over the system and over scripted calls. It prints a line for each test.
#![tactic(auto)]

mod exchanges;
mod scripted;
mod system;

use scripted::{
    a_connection_has_a_budget_of_time, a_scripted_door_answers_by_its_script,
    an_accept_goes_on_after_errors_of_the_network, an_accept_waits_for_what_the_system_lacks,
    each_connection_has_a_budget_of_its_own, interrupted_calls_of_a_connection_are_made_again,
    records_take_no_bytes, scripted_files_answer_by_their_script,
    scripted_streams_answer_by_their_script, the_first_error_and_the_last_name_are_kept,
};
use std::io;
use system::{
    a_door_answers_a_client, a_reply_is_whole_where_input_is_left, files_of_the_system_are_read,
    the_standard_streams_answer,
};

/// Prints whether a test passed.
fn say(rt: HostRuntime, name: &str, passed: io::Result<bool>) -> io::Result<()> {
    match passed {
        Ok(true) => println!(rt; "passed: {name}"),
        Ok(false) => println!(rt; "failed: {name}"),
        Err(error) => println!(rt; "failed: {name}: {error}"),
    }
}

/// Tries the objects over the system.
fn try_system(rt: HostRuntime) -> io::Result<()> {
    say(
        rt,
        "the standard streams answer",
        the_standard_streams_answer(rt),
    )?;
    say(
        rt,
        "files of the system are read",
        files_of_the_system_are_read(rt),
    )?;
    say(rt, "a door answers a client", a_door_answers_a_client(rt))?;
    let whole = a_reply_is_whole_where_input_is_left(rt);
    say(rt, "a reply is whole where input is left", whole)
}

/// Tries the objects over scripted calls.
fn try_scripted(rt: HostRuntime) -> io::Result<()> {
    let tests = [
        (
            "scripted streams answer by their script",
            scripted_streams_answer_by_their_script(),
        ),
        (
            "scripted files answer by their script",
            scripted_files_answer_by_their_script(rt.alloc()),
        ),
        (
            "interrupted calls of a connection are made again",
            interrupted_calls_of_a_connection_are_made_again(),
        ),
        (
            "a connection has a budget of time",
            a_connection_has_a_budget_of_time(),
        ),
        (
            "each connection has a budget of its own",
            each_connection_has_a_budget_of_its_own(),
        ),
        (
            "an accept waits for what the system lacks",
            an_accept_waits_for_what_the_system_lacks(),
        ),
        (
            "an accept goes on after errors of the network",
            an_accept_goes_on_after_errors_of_the_network(),
        ),
        (
            "a scripted door answers by its script",
            a_scripted_door_answers_by_its_script(),
        ),
        (
            "the first error and the last name are kept",
            the_first_error_and_the_last_name_are_kept(rt.alloc()),
        ),
        ("records take no bytes", records_take_no_bytes()),
    ];
    for (name, passed) in tests {
        say(rt, name, Ok(passed))?;
    }
    Ok(())
}

fn main(rt: HostRuntime) -> io::Result<()> {
    try_system(rt)?;
    try_scripted(rt)
}
