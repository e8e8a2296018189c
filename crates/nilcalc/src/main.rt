//! The program: the session over the files, standard input and standard output. Promised by the
//! session; here only the words, and the status that the program ends with.
#![tactic(auto)]

mod args_fault;

use args_fault::ArgsFault;
use nil_io::{FileShelf, InputSource, OutputSink};
use nil_propose::Proposer;
use query_session::{Status, Words, session};
use std::alloc::Global;
use std::process::ExitCode;
use std::{env, io};
use tree_propose::TreeProposer;

fn main(rt: HostRuntime) -> ExitCode {
    let alloc = rt.alloc();
    let status = match read_words(&rt, alloc) {
        Ok(words) => answer(&rt, &words),
        // Such words fit no form.
        Err(ArgsFault::NotText) => {
            let words = Words {
                items: Vec::new(alloc),
            };
            answer(&rt, &words)
        }
        Err(ArgsFault::Memory) => Status::Memory,
    };
    ExitCode::from(status.number())
}

/// The session over the outside, with the proposer of trees.
fn answer(rt: &HostRuntime, words: &Words) -> Status {
    let alloc = rt.alloc();
    let mut shelf = FileShelf::new(rt);
    let mut queries = InputSource::new(rt.reader());
    let mut out = OutputSink::new(io::writer(rt));
    let mut proposers: Vec<Box<dyn Proposer>> = Vec::new(alloc);
    let Ok(trees) = Box::new(alloc, TreeProposer::new(1)) else {
        return Status::Memory;
    };
    let Ok(()) = proposers.push(trees) else {
        return Status::Memory;
    };
    session(alloc, words, &mut shelf, &mut queries, &mut out, proposers)
}

/// The words behind the program's name.
fn read_words(rt: &HostRuntime, alloc: Global) -> Result<Words, ArgsFault> {
    let arguments = env::args(rt)?;
    let Ok(items) = arguments.skip(1).collect(alloc) else {
        return Err(ArgsFault::Memory);
    };
    Ok(Words { items })
}
