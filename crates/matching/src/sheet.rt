ghost use Rattle.matching.specs.Paths.{Blank};

// The marks of one call, one for each good: bytes that it is lent, as a rule of the project wants. None is left when it
// ends, found or not found.
pub(crate) struct Sheet<'a>(pub(crate) &'a mut [u8]);

impl Drop for Sheet<'_> {
    fn drop(self)
        ensures { Blank self.exit.0.now }
    {
        self.0.fill(0);
        // taken apart, since to let it go whole would call `drop` again
        let Sheet(_) = self;
    }
}
