// Why a call failed, as the system says it. std's text for an error of the system ends with its number, ` (os error 28)`, which is left out.
use std::fmt;
use std::fmt::Write;
use std::io::Error;

// Room for any text of std's for an error.
const MOST: usize = 320;

#[derive(Drop)]
pub(crate) struct Reason {
    letters: [u8; 320],
    count: usize,
}

// What has no more room is left out.
impl Write for Reason {
    fn write_str(&mut self, s: &str) -> fmt::Result {
        for b in s.as_bytes() {
            if self.count < MOST {
                self.letters[self.count] = *b;
                self.count += 1;
            }
        }
        Ok(())
    }
}

impl Reason {
    pub(crate) fn of(error: &Error) -> Reason {
        let mut reason = Reason {
            letters: [0; 320],
            count: 0,
        };
        let _ = write!(reason, "{error}");
        if error.raw_os_error().is_some() {
            reason.count = reason.before_number();
        }
        reason
    }

    // Where the last parenthesis opens, and the space before it.
    fn before_number(&self) -> usize {
        match self.text().iter().rposition(|b| *b == b'(') {
            Some(at) => at.saturating_sub(1),
            None => self.count,
        }
    }

    pub(crate) fn text(&self) -> &[u8] {
        if self.count <= MOST {
            &self.letters[..self.count]
        } else {
            &self.letters
        }
    }
}
