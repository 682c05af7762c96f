// Names of codes, by their place in the name bytes.
ghost use Rattle.layout.specs.Answer.{says_count};
ghost use Rattle.std.specs.Prelude.{◌≡◌};
ghost use Rattle.layout.specs.Written.{Wrote, says};
ghost use Rattle.names.specs.Names.{name_bytes, response_place, command_place};
ghost use Rattle.names.specs.Says.{says_name};
ghost use Rattle.abi.specs.Answered.{Gives};
ghost use Rattle.abi.specs.Rows.{place_word};

use crate::answer;
use layout::Refusal;
use names::Name;

// A name's start in the name bytes, times 65,536, and its length; 0 for a code without a name.
fn place(n: Option<Name>) -> u64
    ensures { result ≡ place_word (says_name n) }
{
    match n {
        Some(p) => (p.start % 65536) as u64 * 65536 + (p.len % 65536) as u64,
        None => 0,
    }
}

#[unsafe(no_mangle)]
pub extern "C" fn ptp_response_place(code: u16) -> u64
    ensures { result ≡ place_word (response_place code) }
{
    place(names::response_name(code))
}

#[unsafe(no_mangle)]
pub extern "C" fn ptp_command_place(code: u16) -> u64
    ensures { result ≡ place_word (command_place code) }
{
    place(names::command_name(code))
}

fn put_names(out: &mut [u8]) -> Result<usize, Refusal>
    ensures { Wrote (says name_bytes) out.old (says_count result) out.new }
{
    let all = names::name_bytes();
    if out.len() < 975 {
        return Err(layout::plain(layout::ROOM));
    }
    Ok(layout::copy(&all, 0, 975, out, 0))
}

// All name bytes, in which the places are.
#[unsafe(no_mangle)]
pub extern "C" fn ptp_name_bytes(out: &mut [u8]) -> u64
    ensures { Gives (says name_bytes) out.old result out.new }
{
    answer::told(put_names(out))
}
