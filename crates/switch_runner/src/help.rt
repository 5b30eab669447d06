//! The text of the help.
ghost use Rattle.std.specs.Prelude.{◌≡◌};
ghost use Rattle.switch_runner.specs.HelpText.{help_text};

const HELP: &str = "\
Runs a packet transaction over the packets of a capture, and prints what becomes
of them and of the registers; or prints the transaction's code.

Usage: mp5 MODE PROGRAM CAPTURE [OPTIONS]
       mp5 --help

Arguments:
  MODE     how to run:
             one     one packet after another, in order of arrival
             plan    the compiled program: groups, and the places of each packet
             serial  a switch of several pipelines, step by step, on one thread
             run     the same switch, with a thread for each pipeline
  PROGRAM  the file of the transaction, a text in Domino of at most 65536 bytes
  CAPTURE  the file of the packets, a classic capture (pcap) of Ethernet frames
           of at most 134217728 bytes; or gen:COUNT:SEED, for which no file is
           read: COUNT packets, at most 262144, are made from a seed, which is
           at most 4294967295

Options:
  --pipelines K  how many pipelines a switch has, from 1 to 8 (default 4)
  --window W     how many of its own arrivals a pipeline has out at once, from 1
                 to 1024 (default 64)
  --round M      how many arrivals a round has, from 1 to 65536 (default 256)
  --seed N       where the order of the steps starts from, from 0 to 4294967295
                 (default 0)
  --trace        in modes serial and run also prints which pipeline served what
  --brief        prints sums in place of the packets and the registers
  -h, --help     prints this text on standard error
  --             ends the options, so that the name of a file may begin with -

The exit status is 0 where all was written, and else
  1  help was asked for          5  a file could not be read
  2  the words aren't taken      6  the output could not be written
  3  the program isn't accepted  7  memory ran out
  4  the capture isn't read
";

/// The text of the help.
#[tactic(auto, unfolding(crate::specs::HelpText::help_text))]
pub(crate) fn help_text() -> &'static str
    ensures { result.now ≡ help_text }
{
    HELP
}

#[cfg(test)]
mod tests {
    use super::*;

    #[test]
    fn the_help_fits_a_terminal(rt: HostRuntime) {
        let text = help_text();
        for line in text.lines() {
            assert!(rt; line.len() <= 80, "'{line}'");
        }
        for word in [
            "one",
            "plan",
            "serial",
            "run",
            "MODE",
            "PROGRAM",
            "CAPTURE",
            "--pipelines",
            "--window",
            "--round",
            "--seed",
            "--trace",
            "--brief",
            "gen:COUNT:SEED",
            "--help",
        ] {
            assert!(rt; text.contains(word), "{word}");
        }
    }
}
