//! What the options of `take` ask for.
use clap::ArgMatches;
use cli_open::replica;
use reg_engine::CliFault;
use reg_journal::OfficeFile;
use reg_take::TakeOptions;
use std::alloc::Global;
use uuid::Uuid;

/// The options of `take`. The office file tells which numbers its office gave, if there is one.
pub fn take_options<'a>(
    alloc: Global,
    matches: &ArgMatches<'_>,
    office: Option<&'a OfficeFile>,
) -> Result<TakeOptions<'a>, CliFault> {
    let words = matches.get_strs("from").unwrap_or(&[]);
    Ok(TakeOptions {
        keep_going: matches.get_flag("keep-going"),
        offices: offices(alloc, words)?,
        office,
    })
}

fn offices(alloc: Global, words: &[&str]) -> Result<Vec<Uuid>, CliFault> {
    let mut offices = Vec::new(alloc);
    for word in words {
        let office = replica(word)?;
        if let Err(_) = offices.push(office) {
            return Err(CliFault::Memory);
        }
    }
    Ok(offices)
}
