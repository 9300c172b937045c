// A list while it is written: its members are taken one after the other, and the list rule closes it. Six bytes are left free at its start for its
// own record.
ghost use Rattle.std.specs.Prelude.{◌≡◌, ◌+◌, ◌<◌, length};
ghost use Rattle.replacement.specs.Listing.{opened_of, decided_of, kept_of, taken_of, Space, Closes};

use crate::{Came, Copied, Open};

impl Open {
    // A list with no member yet.
    pub(crate) fn opened(all: bool, start: usize) -> Open
        requires { start + 6 < 18446744073709551616 }
        ensures { result ≡ opened_of all start }
    {
        Open {
            all,
            start,
            end: start + 6,
            kept: 0,
            fixed: false,
        }
    }

    // The list after a member that is true or false: a false one decides ALLOF, a true one ANYOF.
    pub(crate) fn decided(self, v: bool) -> Open
        ensures { result ≡ decided_of self v }
    {
        Open {
            fixed: self.fixed || self.all != v,
            ..self
        }
    }

    // The list after a member that is kept and ends at e.
    pub(crate) fn kept(self, e: usize) -> Open
        requires { self.kept + 1 < 18446744073709551616 }
        ensures { result ≡ kept_of self e }
    {
        Open {
            end: e,
            kept: self.kept + 1,
            ..self
        }
    }

    // The list after a member.
    pub(crate) fn taken(self, came: Came) -> Open
        requires { self.kept + 1 < 18446744073709551616 }
        ensures { result ≡ taken_of self came }
    {
        match came {
            Came::Decided(v) => self.decided(v),
            Came::Kept(e) => self.kept(e),
        }
    }

    // The list rule, once all members are there; used is the length of the source.
    pub(crate) fn closed(self, out: &mut [u8], used: usize) -> Copied
        requires { Space self (length out.old) }
        ensures { Closes self used out.old out.new result }
    {
        let came = if self.fixed {
            Came::Decided(!self.all)
        } else if self.kept == 0 {
            Came::Decided(self.all)
        } else if self.kept == 1 {
            out.copy_within(self.start + 6..self.end, self.start);
            Came::Kept(self.end - 6)
        } else {
            writing::put_list(out, self.start, self.all, self.kept);
            Came::Kept(self.end)
        };
        Copied { used, came }
    }
}
