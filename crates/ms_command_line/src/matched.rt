//! What the matches of a command line ask for.

ghost use Rattle.std.specs.Prelude.{◌≡◌, Some, option_and_then, true};
ghost use Rattle.clap.specs.Words.{found_of, rows_of, subcommand_rows_of};
ghost use Rattle.ms_command_line.specs.Asked.{IsInRange, asked_by, has_number, has_word, is_complete, view};
ghost use Rattle.ms_command_line.specs.Asked as asked;
ghost use Rattle.ms_command_line.specs.Commands.{IsWithin};

use super::definition::{
    ASM, BUDGET, CHECK, COMPILE, COUNT, EXEC, FILE, JOB, JUDGE, MEMORY, NumberOption, NumberPlace,
    OUT, RUN, SEED, STRESS,
};
use super::request::Request;
use clap::ArgMatches;

/// What the matches of a command line ask for, which name a command and have all that its row names.
pub fn request_of<'a>(matches: &ArgMatches<'a>) -> Request<'a>
    requires { (p : _) × (subcommand_rows_of matches.now ≡ Some p) × (is_complete p.0 p.1 ≡ true) }
    ensures asked { option_and_then (λ p. asked_by p.0 p.1) (subcommand_rows_of matches.now) ≡ Some (view result) }
    ensures ranges { IsInRange result }
{
    let (name, inner) = matches.subcommand().unwrap();
    request_by(name, inner)
}

fn request_by<'a>(name: &str, matches: &ArgMatches<'a>) -> Request<'a>
    requires { is_complete name.now (rows_of (found_of matches.now)) ≡ true }
    ensures asked { asked_by name.now (rows_of (found_of matches.now)) ≡ Some (view result) }
    ensures ranges { IsInRange result }
{
    if name == STRESS.name {
        return Request::Stress {
            seed: place_number(matches, SEED),
            count: place_number(matches, COUNT),
        };
    }
    if name == RUN.name {
        let job = word(matches, JOB);
        return Request::Run { job };
    }
    let file = word(matches, FILE);
    if name == EXEC.name {
        return Request::Exec {
            file,
            budget: option_number(matches, BUDGET),
            memory: option_number(matches, MEMORY) as u32,
        };
    }
    if name == CHECK.name {
        return Request::Check { file };
    }
    if name == JUDGE.name {
        return Request::Judge {
            file,
            memory: option_number(matches, MEMORY) as u32,
        };
    }
    let out = word(matches, OUT);
    if name == ASM.name {
        return Request::Asm { file, out };
    }
    if name == COMPILE.name {
        return Request::Compile { file, out };
    }
    Request::Dis { file, out }
}

fn word<'a>(matches: &ArgMatches<'a>, name: &str) -> &'a str
    requires { has_word name.now (rows_of (found_of matches.now)) ≡ true }
    ensures { result.now ≡ asked.word name.now (rows_of (found_of matches.now)) }
{
    matches.get_str(name).unwrap()
}

fn option_number(matches: &ArgMatches, option: NumberOption) -> u64
    requires { has_number option.name.now option.least option.most (rows_of (found_of matches.now)) ≡ true }
    ensures value { result ≡ asked.number option.name.now (rows_of (found_of matches.now)) }
    ensures range { IsWithin option.least option.most result }
{
    number(matches, option.name, option.least, option.most)
}

fn place_number(matches: &ArgMatches, place: NumberPlace) -> u64
    requires { has_number place.name.now place.least place.most (rows_of (found_of matches.now)) ≡ true }
    ensures value { result ≡ asked.number place.name.now (rows_of (found_of matches.now)) }
    ensures range { IsWithin place.least place.most result }
{
    number(matches, place.name, place.least, place.most)
}

fn number(matches: &ArgMatches, name: &str, _least: u64, _most: u64) -> u64
    requires { has_number name.now _least _most (rows_of (found_of matches.now)) ≡ true }
    ensures value { result ≡ asked.number name.now (rows_of (found_of matches.now)) }
    ensures range { IsWithin _least _most result }
{
    matches.get_str(name).unwrap().parse::<u64>().unwrap()
}
