// Marks of modules in lent bytes.
ghost use Rattle.std.specs.Prelude.{◌≡◌, ◌^◌, ◌<◌, length, replicate};

// What a walk knows of a module. The caller lends bytes, which hold these numbers.
#[derive(Clone, Copy)]
pub(crate) enum Mark {
    Unmet = 0,
    Waiting = 1,
    Done = 2,
}

// The marks of a search. A guard: the bytes are blank again whichever way the search ends.
pub(crate) struct Marks<'a>(pub(crate) &'a mut [u8]);

impl Drop for Marks<'_> {
    fn drop(self)
        ensures { self.exit.0.now ≡ replicate (length self.entry.0.now) 0 }
    {
        blank(self.0);
        let Marks(_) = self;
    }
}

// No module has been met.
pub(crate) fn blank(marks: &mut [u8])
    ensures { marks.new ≡ replicate (length marks.old) 0 }
{
    marks.fill(Mark::Unmet as u8);
}
