//! The reports of a register.
use clap::ArgMatches;
use cli_open::{print_of, word};
use reg_commands::Report;
use reg_desk::Amiss;
use reg_disorder::Disorder;
use reg_engine::CliFault;
use reg_report::ReportKind;

/// `report`, if there is one of the kind.
pub fn report(rt: &HostRuntime, matches: &ArgMatches<'_>) -> Option<Result<(), CliFault>> {
    let word = word(matches, "KIND");
    if let Some(way) = disorder(word) {
        return Some(print_of(rt, matches, &Amiss { way }));
    }
    let kind = kind(word)?;
    Some(print_of(rt, matches, &Report { kind }))
}

fn disorder(word: &str) -> Option<Disorder> {
    match word {
        "duplicates" => Some(Disorder::Duplicates),
        "dangling" => Some(Disorder::Dangling),
        "withdrawn" => Some(Disorder::Withdrawn),
        _ => None,
    }
}

fn kind(word: &str) -> Option<ReportKind> {
    match word {
        "entries" => Some(ReportKind::Entries),
        "conflicts" => Some(ReportKind::Conflicts),
        "awaited" => Some(ReportKind::Awaited),
        "gaps" => Some(ReportKind::Gaps),
        _ => None,
    }
}
