ghost use Rattle.std.specs.Prelude.{◌≡◌, ◌≤◌, List, [], map, codes, pos, string_bytes, option_map};
ghost use Rattle.std.specs.Prelude.{IfOk, IfErr, IfSome, Some, None, false};
ghost use Rattle.std.specs.List.{before_first, after_first};
ghost use Rattle.clap.specs.Words.{FailsBy, app_of, first_value, found_of, one_text, rows_of, rule_of};
ghost use Rattle.clap.specs.declared.builder.value_parser.ValueParser.TheVariants as parser;
ghost use Rattle.command_line.specs.CommandLine as command;

use crate::request::{CaptureName, MAX_MADE, Mode, Request, WordsFault};
use clap::builder::ValueParser;
use clap::error::ErrorKind;
use clap::{Arg, ArgAction, ArgMatches, Command, Error, value_parser};
use mp5_words::{MAX_PIPELINES, MAX_ROUND, MAX_WINDOW, Settings};
use std::alloc::{AllocError, Global};

/// What the words ask for, of which the first is the program's own name.
///
/// The options are value parsers of `clap` with their ranges and default values: a number is what
/// `clap`'s parser of a `u32` takes, as `+4` and `04`, and the default value where there is no
/// option. A number out of its range is refused in every mode. The two numbers of a capture that is
/// made have no sign and no zero in front.
pub fn asked(alloc: Global, words: &[String]) -> Result<Request<'_>, WordsFault>
    ensures taken { IfOk result (λ r. command.asked (map string_bytes words.entry.now)
        ≡ Some (command.request_with r.mode r.program.now (command.origin_of r.capture)
        r.settings r.seed r.trace r.brief)) }
    ensures limited { IfOk result (λ r. command.IsWithin (command.origin_of r.capture)) }
    // Help comes only where the words ask for it, and Words only where they are refused.
    ensures refused { IfErr result (command.NotTaken (map string_bytes words.entry.now)) }
{
    match matched(alloc, words) {
        Ok(matches) => request_of(&matches),
        Err(error) => Err(refusal(error.kind())),
    }
}

// The words, matched against the command.
fn matched<'a>(alloc: Global, words: &'a [String]) -> Result<ArgMatches<'a>, Error>
    ensures fails { FailsBy (command.faults (map string_bytes words.entry.now)) result }
    ensures rows { IfOk result
        (λ m. rows_of (found_of m) ≡ command.arguments (map string_bytes words.entry.now)) }
{
    let command = command(alloc)?;
    command.try_get_matches_from(words)
}

// The command `mp5 MODE PROGRAM CAPTURE` with its six options.
fn command<'a>(alloc: Global) -> Result<Command<'a>, AllocError>
    ensures { IfOk result (λ c. app_of c ≡ command.ours) }
{
    let command = Command::new(alloc, "mp5")
        .arg(required_word(alloc, "mode"))?
        .arg(required_word(alloc, "program"))?
        .arg(required_word(alloc, "capture"))?
        .arg(number(alloc, "pipelines", from_one(MAX_PIPELINES), "4"))?
        .arg(number(alloc, "window", from_one(MAX_WINDOW), "64"))?
        .arg(number(alloc, "round", from_one(MAX_ROUND), "256"))?
        .arg(number(alloc, "seed", value_parser!(u32), "0"))?
        .arg(flag(alloc, "trace"))?
        .arg(flag(alloc, "brief"))?;
    Ok(command)
}

// A word that has to be there.
fn required_word<'a>(alloc: Global, id: &'a str) -> Arg<'a>
    ensures rule { rule_of result ≡ command.required_word id.entry.now }
    ensures own { result.global ≡ false }
{
    Arg::new(alloc, id).required(true)
}

// An option of a number, of which this is the default value.
fn number<'a>(alloc: Global, id: &'a str, parser: ValueParser<'a>, default: &'a str) -> Arg<'a>
    ensures rule { rule_of result ≡ command.number id.entry.now parser.entry default.entry.now }
    ensures own { result.global ≡ false }
{
    Arg::new(alloc, id)
        .long(id)
        .value_parser(parser)
        .default_value(default)
}

// An option without a value.
fn flag<'a>(alloc: Global, id: &'a str) -> Arg<'a>
    ensures rule { rule_of result ≡ command.flag id.entry.now }
    ensures own { result.global ≡ false }
{
    Arg::new(alloc, id).long(id).action(ArgAction::SetTrue)
}

// The parser of the numbers from 1 to this one.
fn from_one<'a>(most: u32) -> ValueParser<'a>
    ensures { result ≡ parser.Signed (pos 1) (pos most) }
{
    value_parser!(u32).range(1..=i64::from(most))
}

// The answer to an error.
fn refusal(kind: ErrorKind) -> WordsFault
    ensures { result ≡ command.refusal kind }
{
    match kind {
        ErrorKind::DisplayHelp => WordsFault::Help,
        ErrorKind::OutOfMemory => WordsFault::NoMemory,
        _ => WordsFault::Words,
    }
}

// The request of the arguments, or Words where they are those of none.
fn request_of<'a>(matches: &ArgMatches<'a>) -> Result<Request<'a>, WordsFault>
    ensures taken { IfOk result (λ r. command.request_found (found_of matches.now)
        ≡ Some (command.request_with r.mode r.program.now (command.origin_of r.capture)
        r.settings r.seed r.trace r.brief)) }
    ensures limited { IfOk result (λ r. command.IsWithin (command.origin_of r.capture)) }
    ensures refused { IfErr result (λ e. (e ≡ WordsFault.Words)
        × (command.request_found (found_of matches.now) ≡ None)) }
{
    let (Some(mode), Some(program), Some(capture)) = (
        matches.get_str("mode"),
        matches.get_str("program"),
        matches.get_str("capture"),
    ) else {
        return Err(WordsFault::Words);
    };
    match (mode_of(mode), capture_of(capture), numbers_of(matches)) {
        (Some(mode), Some(capture), Some((settings, seed))) => Ok(Request {
            mode,
            program,
            capture,
            settings,
            seed,
            trace: has_flag(matches, "trace"),
            brief: has_flag(matches, "brief"),
        }),
        _ => Err(WordsFault::Words),
    }
}

// Whether the flag of this name is there.
fn has_flag(matches: &ArgMatches<'_>, id: &str) -> bool
    ensures { result ≡ command.flag_in (first_value (found_of matches.now) id.now) }
{
    match matches.get_str(id) {
        Some(text) => text == "true",
        None => false,
    }
}

// The mode of this name.
fn mode_of(name: &str) -> Option<Mode>
    ensures { result ≡ command.mode_of name.now }
{
    match name {
        "one" => Some(Mode::One),
        "plan" => Some(Mode::Plan),
        "serial" => Some(Mode::Serial),
        "run" => Some(Mode::Run),
        _ => None,
    }
}

// The capture that a word names: one that is made, where it begins with `gen:`, else a file.
fn capture_of<'a>(word: &'a str) -> Option<CaptureName<'a>>
    ensures named { option_map command.origin_of result ≡ command.origin_in word.entry.now }
    ensures limited { IfSome result (λ c. command.IsWithin (command.origin_of c)) }
{
    if !word.as_bytes().starts_with(b"gen:") {
        return Some(CaptureName::File(word));
    }
    let (_, numbers) = cut_at_colon(word);
    let (count, seed) = cut_at_colon(numbers);
    match (plain_number(count, MAX_MADE), plain_number(seed, u32::MAX)) {
        (Some(count), Some(seed)) => Some(CaptureName::Made { count, seed }),
        _ => None,
    }
}

// What stands before the first colon and behind it; all and nothing where there is none.
fn cut_at_colon<'a>(text: &'a str) -> (&'a str, &'a str)
    ensures before { result.0.now ≡ before_first command.is_colon text.entry.now }
    ensures behind { result.1.now ≡ after_first command.is_colon text.entry.now }
{
    match text.split_once(':') {
        Some(parts) => parts,
        None => (text, ""),
    }
}

// The number that a text writes without a sign and without a zero in front, where it is no greater than this.
fn plain_number(text: &str, most: u32) -> Option<u32>
    ensures number { result ≡ command.plain_number most text.now }
    ensures limited { IfSome result (λ n. n ≤ most) }
{
    if !is_plain(text.as_bytes()) {
        return None;
    }
    match text.parse::<u32>() {
        Ok(number) if number <= most => Some(number),
        _ => None,
    }
}

// Whether a text begins with a digit, and with no zero but where that is all.
fn is_plain(text: &[u8]) -> bool
    ensures { result ≡ command.is_plain text.now }
{
    match text {
        [] => false,
        [digit] => digit.is_ascii_digit(),
        [first, ..] => b'1' <= *first && *first <= b'9',
    }
}

// The settings and the seed of the arguments.
fn numbers_of(matches: &ArgMatches<'_>) -> Option<(Settings, u32)>
    ensures { option_map (λ p. command.numbers_with p.0 p.1) result
        ≡ command.numbers_found (found_of matches.now) }
{
    let (Some(pipelines), Some(window), Some(round), Some(seed)) = (
        number_at(matches, "pipelines"),
        number_at(matches, "window"),
        number_at(matches, "round"),
        number_at(matches, "seed"),
    ) else {
        return None;
    };
    match Settings::new(pipelines, window, round) {
        Some(settings) => Some((settings, seed)),
        None => None,
    }
}

// The number of the option of this name.
fn number_at(matches: &ArgMatches<'_>, id: &str) -> Option<u32>
    ensures { result ≡ command.number_in (one_text (found_of matches.now) id.now) }
{
    matches.get_one::<u32>(id)
}

#[cfg(test)]
mod tests {
    use super::*;
    use std::test::Fail;

    // The words of a line, which stand between single spaces; none in an empty line.
    fn words_of(alloc: Global, line: &str) -> Result<Vec<String>, AllocError> {
        let mut words = Vec::new(alloc);
        if !line.is_empty() {
            for word in line.split(' ') {
                words.push(String::from_str(alloc, word)?)?;
            }
        }
        Ok(words)
    }

    // Why no request comes of a line; nothing where one does.
    fn fault_of(alloc: Global, line: &str) -> Result<Option<WordsFault>, AllocError> {
        let words = words_of(alloc, line)?;
        match asked(alloc, &words) {
            Ok(_) => Ok(None),
            Err(fault) => Ok(Some(fault)),
        }
    }

    #[test]
    fn words_that_are_taken(rt: HostRuntime) -> Result<(), Fail> {
        let alloc = rt.alloc();
        for (line, mode, program, capture) in [
            ("mp5 one p c", Mode::One, "p", "c"),
            ("mp5 plan p c", Mode::Plan, "p", "c"),
            ("mp5 serial p c", Mode::Serial, "p", "c"),
            ("mp5 run p c", Mode::Run, "p", "c"),
            ("--help one p c", Mode::One, "p", "c"),
            (" one p c", Mode::One, "p", "c"),
            ("mp5 one one one", Mode::One, "one", "one"),
            ("mp5 plan plan one", Mode::Plan, "plan", "one"),
            ("mp5 serial one plan", Mode::Serial, "one", "plan"),
            ("mp5 one - c", Mode::One, "-", "c"),
            ("mp5 one p -", Mode::One, "p", "-"),
            ("mp5 one  c", Mode::One, "", "c"),
            ("mp5 one p ", Mode::One, "p", ""),
            ("mp5 one gen:1:1 c", Mode::One, "gen:1:1", "c"),
            ("mp5 one p gen", Mode::One, "p", "gen"),
            ("mp5 one p Gen:1:1", Mode::One, "p", "Gen:1:1"),
            ("mp5 -- one p c", Mode::One, "p", "c"),
            ("mp5 one -- p c", Mode::One, "p", "c"),
            ("mp5 one p c --", Mode::One, "p", "c"),
            ("mp5 one -- -p --help", Mode::One, "-p", "--help"),
            ("mp5 one p -- --", Mode::One, "p", "--"),
            // An option stands anywhere before `--`, and is a word after it.
            ("mp5 --seed 3 serial p c", Mode::Serial, "p", "c"),
            ("mp5 serial --seed 3 p c", Mode::Serial, "p", "c"),
            ("mp5 one p --seed=3 c", Mode::One, "p", "c"),
            ("mp5 plan p c --seed 3", Mode::Plan, "p", "c"),
            ("mp5 --seed 3 -- serial p c", Mode::Serial, "p", "c"),
            ("mp5 serial -- --seed 3", Mode::Serial, "--seed", "3"),
            ("mp5 serial p -- --seed=9", Mode::Serial, "p", "--seed=9"),
            ("mp5 serial p c --trace", Mode::Serial, "p", "c"),
            (
                "mp5 run -- --trace --brief",
                Mode::Run,
                "--trace",
                "--brief",
            ),
        ] {
            let words = words_of(alloc, line)?;
            match asked(alloc, &words) {
                Ok(request) => {
                    assert!(rt; request.mode == mode, "the mode of '{line}'");
                    assert_eq!(rt; request.program, program, "the program of '{line}'");
                    assert!(rt;
                        request.capture == CaptureName::File(capture),
                        "the capture of '{line}'"
                    );
                }
                Err(fault) => assert!(rt; false, "'{line}': {fault}"),
            }
        }
        Ok(())
    }

    #[test]
    fn numbers_that_are_taken(rt: HostRuntime) -> Result<(), Fail> {
        let alloc = rt.alloc();
        for (line, numbers) in [
            ("mp5 serial p c", [4, 64, 256, 0]),
            ("mp5 one p c", [4, 64, 256, 0]),
            ("mp5 serial p c --pipelines 1", [1, 64, 256, 0]),
            ("mp5 serial p c --pipelines=8", [8, 64, 256, 0]),
            ("mp5 serial p c --window=1", [4, 1, 256, 0]),
            ("mp5 serial p c --window 1024", [4, 1024, 256, 0]),
            ("mp5 serial p c --round 1", [4, 64, 1, 0]),
            ("mp5 serial p c --round=65536", [4, 64, 65536, 0]),
            ("mp5 serial p c --seed 0", [4, 64, 256, 0]),
            ("mp5 serial p c --seed=4294967295", [4, 64, 256, 4294967295]),
            // A plus and zeros may stand in front, and a minus before nothing but zeros.
            ("mp5 serial p c --pipelines +5", [5, 64, 256, 0]),
            ("mp5 serial p c --window=+007", [4, 7, 256, 0]),
            (
                "mp5 serial p c --round 000000000000000000000512",
                [4, 64, 512, 0],
            ),
            ("mp5 serial p c --seed=-0", [4, 64, 256, 0]),
            // The options stand anywhere, in any order, in every mode.
            (
                "mp5 --seed 9 serial --round 7 p --window=6 c --pipelines 5",
                [5, 6, 7, 9],
            ),
            (
                "mp5 plan --pipelines=2 --window=3 p c --seed=1",
                [2, 3, 256, 1],
            ),
            ("mp5 one --window 2 --pipelines 3 p c", [3, 2, 256, 0]),
            ("mp5 serial -- --seed 3", [4, 64, 256, 0]),
            ("mp5 serial --seed=5 -- --seed=6 --seed=7", [4, 64, 256, 5]),
        ] {
            let words = words_of(alloc, line)?;
            match asked(alloc, &words) {
                Ok(request) => {
                    let settings = request.settings;
                    assert_eq!(rt; settings.pipelines, numbers[0], "the pipelines of '{line}'");
                    assert_eq!(rt; settings.window, numbers[1], "the window of '{line}'");
                    assert_eq!(rt; settings.round, numbers[2], "the round of '{line}'");
                    assert_eq!(rt; request.seed, numbers[3], "the seed of '{line}'");
                }
                Err(fault) => assert!(rt; false, "'{line}': {fault}"),
            }
        }
        Ok(())
    }

    #[test]
    fn captures_that_are_made(rt: HostRuntime) -> Result<(), Fail> {
        let alloc = rt.alloc();
        for (line, count, seed) in [
            ("mp5 one p gen:0:0", 0, 0),
            ("mp5 plan p gen:1:7", 1, 7),
            ("mp5 serial p gen:10:90", 10, 90),
            ("mp5 run p gen:262144:4294967295", 262144, 4294967295),
            ("mp5 one -- p gen:100000:12", 100000, 12),
            ("mp5 one gen:1:1 gen:2:3", 2, 3),
        ] {
            let words = words_of(alloc, line)?;
            match asked(alloc, &words) {
                Ok(request) => {
                    assert!(rt;
                        request.capture == CaptureName::Made { count, seed },
                        "'{line}'"
                    );
                }
                Err(fault) => assert!(rt; false, "'{line}': {fault}"),
            }
        }
        Ok(())
    }

    #[test]
    fn flags_that_are_taken(rt: HostRuntime) -> Result<(), Fail> {
        let alloc = rt.alloc();
        for (line, trace, brief) in [
            ("mp5 run p c", false, false),
            ("mp5 run p c --trace", true, false),
            ("mp5 --brief run p c", false, true),
            ("mp5 one --trace p --brief c", true, true),
            ("mp5 plan p c --brief --trace", true, true),
            ("mp5 serial p gen:1:1 --trace --seed 3", true, false),
            ("mp5 serial --brief -- p c", false, true),
            ("mp5 serial -- --brief --trace", false, false),
        ] {
            let words = words_of(alloc, line)?;
            match asked(alloc, &words) {
                Ok(request) => {
                    assert_eq!(rt; request.trace, trace, "the trace of '{line}'");
                    assert_eq!(rt; request.brief, brief, "whether '{line}' is brief");
                }
                Err(fault) => assert!(rt; false, "'{line}': {fault}"),
            }
        }
        Ok(())
    }

    #[test]
    fn words_that_are_not_taken(rt: HostRuntime) -> Result<(), Fail> {
        let alloc = rt.alloc();
        for lines in [
            "mp5 --help|mp5 -h|mp5 one --help|mp5 one p -h|mp5 one p c --help|mp5 --help p c",
            // Help comes before what is wrong later, and before the mode is judged.
            "mp5 --help --brief|mp5 -hx|mp5 --help --help|mp5 two p c -h",
            "mp5 one p gen:1:1 --help|mp5 --seed 3 --help|mp5 serial p c --pipelines=8 -h",
            "mp5 -h --pipelines=9|mp5 --help --seed|mp5 --brief --help|mp5 one p gen: -h",
        ] {
            for line in lines.split('|') {
                assert_eq!(rt; fault_of(alloc, line)?, Some(WordsFault::Help), "'{line}'");
            }
        }
        for lines in [
            // What is wrong before a call for help is answered first.
            "mp5 --brie --help|mp5 -xh|mp5 --brief --brief -h|mp5 one p c d --help|mp5 --help=x|mp5 --pipelines 9 -h",
            "mp5 --window=0 --help|mp5 --seed --help|mp5 --seed 1 --seed 1 -h|mp5 -- --help",
            // No words, too few and too many.
            "|mp5|mp5 one|mp5 one p|mp5 serial|mp5 serial p|mp5 one p c d|mp5 one p c |mp5 help",
            // No mode, and a capture that can't be made: one packet or one seed too many, a sign, a zero in front, a
            // space, a part that is missing, and one too many.
            "mp5 two p c|mp5 One p c|mp5 on p c|mp5 ones p c|mp5  p c|mp5 p one c|mp5 Plan p c",
            "mp5 pla p c|mp5 plans p c|mp5 Serial p c|mp5 seria p c|mp5 serials p c|mp5 Run p c|mp5 runs p c",
            "mp5 one p gen:262145:1|mp5 one p gen:1:4294967296|mp5 run p gen:4294967297:1",
            "mp5 one p gen:+1:1|mp5 one p gen:1:+1|mp5 one p gen:-1:1|mp5 one p gen:1:-0",
            "mp5 one p gen:01:1|mp5 one p gen:1:00|mp5 one p gen:1:01|mp5 one p gen:00:1",
            "mp5 one p gen:|mp5 one p gen:1|mp5 one p gen:1:|mp5 one p gen::1|mp5 one p gen::",
            "mp5 one p gen:1:1:|mp5 one p gen:1:1:1|mp5 one p gen:0x1:1|mp5 one p gen:1:1a|mp5 one -- p gen:x",
            "mp5 plan p gen:1e1:1|mp5 serial p gen:1:1.0|mp5 run p gen:1:~|mp5 run p gen:/:1",
            // Unknown options.
            "mp5 --hel|mp5 --Help|mp5 ---help|mp5 one -p c|mp5 one p -c|mp5 one p -1",
            "mp5 one p c --brie|mp5 one p --traces c|mp5 --brief --brief|mp5 serial p c -t",
            "mp5 one p c --brief=1|mp5 serial p c --trace=true|mp5 run --trace p c --trace",
            "mp5 --version|mp5 -V|mp5 one p c --version|mp5 one p c -V",
            // A number out of its range, in each mode.
            "mp5 one p c --pipelines 0|mp5 plan p c --pipelines 9|mp5 serial p c --pipelines=9",
            "mp5 one p c --window 0|mp5 plan p c --window 1025|mp5 serial p c --window=1025",
            "mp5 one p c --round 0|mp5 plan p c --round 65537|mp5 serial p c --round=65537",
            "mp5 one p c --seed 4294967296|mp5 plan --seed=-1 p c",
            "mp5 serial p c --seed=9223372036854775808",
            // A text that is no number, and a value that is missing.
            "mp5 serial p c --seed=|mp5 serial p c --seed |mp5 serial p c --seed=+",
            "mp5 serial p c --seed=++1|mp5 serial p c --seed=0x4",
            "mp5 serial p c --pipelines 4.0|mp5 serial p c --round=1e1",
            "mp5 serial p c --seed -0|mp5 serial p c --seed=1=2|mp5 serial p c --pipelines=-4",
            "mp5 serial p c --window=-|mp5 serial p c --window=6a|mp5 serial p c --seed",
            "mp5 serial p c --seed --window 3|mp5 serial p --seed -- 3|mp5 --seed serial p c",
            // An option that is given twice, by another name, or after `--`.
            "mp5 serial p c --seed 1 --seed 1|mp5 --round=1 one p c --round 2",
            "mp5 plan --window 1 p --window=1 c|mp5 serial p c --pipe 4",
            "mp5 serial p c --Seed 1|mp5 serial p c -s 1|mp5 serial p c -seed 1",
            "mp5 serial p c -- --seed 3|mp5 serial p c -- --seed=3|mp5 -- --seed 3 serial p c",
        ] {
            for line in lines.split('|') {
                assert_eq!(rt; fault_of(alloc, line)?, Some(WordsFault::Words), "'{line}'");
            }
        }
        Ok(())
    }
}
