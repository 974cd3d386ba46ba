// What a program prints of a settings text: the text written again, and the capture text that sets a panel to it.
ghost use Rattle.std.specs.Prelude.{◌≡◌, ◌+◌, ◌≤◌, [], ◌∷◌, length};
ghost use Rattle.base.specs.Refusals.{done, refused, number_of, place_of};
ghost use Rattle.lines.specs.Answers.{Puts};
ghost use Rattle.lines.specs.Lines.{line_for};
ghost use Rattle.writer.specs.Rows.{list_test};
ghost use Rattle.settings.specs.Printing as P;
ghost use Rattle.settings.specs.Putting as W;

use crate::{Kiosk, WORDS, puts, read};
use base::{Handed, Refusal};
use capture::Replayed;

// The samples of the rows of the most chips.
const SAMPLES: usize = 4 * (24 * chain::MOST + 2);

// A refusal's line at the front.
fn refused(e: Refusal, out: &mut [u8]) -> Replayed
    requires { 13 ≤ length out.old }
    ensures { P.Prints (refused (number_of e) (place_of e)) [] out.old result out.new }
{
    Replayed {
        bytes: capture::put::refusal(e, out, 0),
        answer: Err(e),
    }
}

// The text read and written again.
pub(crate) fn again(text: &[u8], out: &mut [u8]) -> Replayed
    requires { 111 ≤ length out.old }
    ensures { P.PrintsAgain text.now out.old result out.new }
{
    let Handed {
        value: kiosk,
        answer,
    } = read(text);
    match answer {
        Ok(()) => Replayed {
            bytes: puts::text(kiosk, out),
            answer,
        },
        Err(e) => refused(e, out),
    }
}

// A line of samples.
fn samples_line(samples: &[u8], out: &mut [u8], at: usize) -> usize
    requires samples_len_bound { length samples.now ≤ 32 }
    requires samples_in_bounds { at + length (line_for (0x01 ∷ samples.now)) ≤ length out.old }
    ensures { Puts (line_for (0x01 ∷ samples.now)) at out.old result out.new }
{
    let mut bytes = [0u8; 33];
    bytes[0] = 0x01;
    let count = samples.len() + 1;
    bytes[1..count].copy_from_slice(samples);
    lines::put_line(&bytes[..count], out, at)
}

// Samples in lines of 32.
fn sample_lines(samples: &[u8], out: &mut [u8], at: usize) -> usize
    requires { at + length (P.sample_lines samples.now) ≤ length out.old }
    ensures { Puts (P.sample_lines samples.now) at out.old result out.new }
{
    let mut end = at;
    for line in samples.chunks(32) {
        end = samples_line(line, out, end);
    }
    end
}

// The capture text of settings that passed their test, or the writer's refusal of their rows.
fn laid_out(kiosk: Kiosk, out: &mut [u8]) -> Replayed
    requires kiosk_value { W.settings_test kiosk ≡ done tt }
    requires in_bounds { 1634 ≤ length out.old }
    ensures { P.Prints (list_test kiosk.n (P.kiosk_words kiosk)) (P.setup_of kiosk) out.old result out.new }
{
    let mut words = [0u16; WORDS];
    let mut samples = [0u8; SAMPLES];
    let count = puts::words(kiosk, &mut words);
    let size = match writer::write(kiosk.n, &words[..count], &mut samples) {
        Ok(size) => size,
        Err(e) => return refused(e, out),
    };
    let at = lines::put_line(&[0x00, 0x01, kiosk.n as u8], out, 0);
    Replayed {
        bytes: sample_lines(&samples[..size], out, at),
        answer: Ok(()),
    }
}

// The capture text that sets a panel to the settings of a text.
pub(crate) fn setup(text: &[u8], out: &mut [u8]) -> Replayed
    requires { 1634 ≤ length out.old }
    ensures { P.PrintsSetup text.now out.old result out.new }
{
    let Handed {
        value: kiosk,
        answer,
    } = read(text);
    match answer {
        Ok(()) => laid_out(kiosk, out),
        Err(e) => refused(e, out),
    }
}
