ghost use Rattle.std.specs.Prelude.{◌≡◌, IfOk, false, map, option_map, string_bytes};
ghost use Rattle.clap.specs.Words.{app_of, first_of, found_of, rows_of, rule_of};
ghost use Rattle.umem_words.specs.Command.{command, file_rule, mode_rule, option_rule};
ghost use Rattle.umem_words.specs.Texts.{told_texts, text_told};
ghost use Rattle.umem_words.specs.Told.{told, told_in};

use crate::told::Told;
use clap::error::ErrorKind;
use clap::{Arg, ArgMatches, Command};
use std::alloc::Global;
use umem_base::NoMemory;

/// What the words give, or `None` where the command refuses them.
pub fn read_told<'a>(alloc: Global, words: &'a [String]) -> Result<Option<Told<'a>>, NoMemory>
    ensures { IfOk result (λ given. option_map told_texts given ≡ told (map string_bytes words.now)) }
{
    let command = command(alloc)?;
    match command.try_get_matches_from(words) {
        Ok(matches) => Ok(Some(told_in(&matches))),
        Err(error) => match error.kind() {
            ErrorKind::OutOfMemory => Err(NoMemory),
            _ => Ok(None),
        },
    }
}

fn command<'a>(alloc: Global) -> Result<Command<'a>, NoMemory>
    ensures { IfOk result (λ made. app_of made ≡ command) }
{
    let command = Command::new(alloc, "umem")
        .no_binary_name(true)
        .disable_help_flag(true)
        .arg(mode(alloc))?
        .arg(file(alloc))?
        .arg(option(alloc, "core"))?
        .arg(option(alloc, "debug"))?
        .arg(option(alloc, "logging"))?
        .arg(option(alloc, "seed"))?
        .arg(option(alloc, "ops"))?;
    Ok(command)
}

fn mode<'a>(alloc: Global) -> Arg<'a>
    ensures rule { rule_of result ≡ mode_rule }
    ensures own { result.global ≡ false }
{
    Arg::new(alloc, "mode").required(true)
}

fn file<'a>(alloc: Global) -> Arg<'a>
    ensures rule { rule_of result ≡ file_rule }
    ensures own { result.global ≡ false }
{
    Arg::new(alloc, "file")
}

fn option<'a>(alloc: Global, name: &'a str) -> Arg<'a>
    ensures rule { rule_of result ≡ option_rule name.entry.now }
    ensures own { result.global ≡ false }
{
    Arg::new(alloc, name).long(name)
}

fn told_in<'a>(matches: &ArgMatches<'a>) -> Told<'a>
    ensures { told_texts result ≡ told_in (rows_of (found_of matches.now)) }
{
    Told {
        mode: value(matches, "mode"),
        file: value(matches, "file"),
        core: value(matches, "core"),
        debug: value(matches, "debug"),
        logging: value(matches, "logging"),
        seed: value(matches, "seed"),
        ops: value(matches, "ops"),
    }
}

fn value<'a>(matches: &ArgMatches<'a>, id: &str) -> Option<&'a str>
    ensures { text_told result ≡ first_of id.now (rows_of (found_of matches.now)) }
{
    matches.get_str(id)
}
