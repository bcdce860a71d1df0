//! `completions`.
use clap::ArgMatches;
use cli_open::{print, word};
use cli_words::{Defaults, Shell, command_line, completion_script};
use reg_engine::CliFault;

/// `completions`, if there is a shell with this name.
pub fn completions(rt: &HostRuntime, matches: &ArgMatches<'_>) -> Option<Result<(), CliFault>> {
    let shell = Shell::named(word(matches, "SHELL"))?;
    let Ok(whole) = command_line(rt.alloc(), &Defaults::none(), "") else {
        return Some(Err(CliFault::Memory));
    };
    match completion_script(rt.alloc(), &whole, shell) {
        Ok(script) => Some(print(rt, &script)),
        Err(_) => Some(Err(CliFault::Memory)),
    }
}
