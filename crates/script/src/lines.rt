ghost use Rattle.std.specs.Iterator.{YieldsFirstBy, item_count};
ghost use Rattle.script.specs.Lines.{lines_of};

// What ends a line.
const LINE_FEED: u8 = b'\n';

// The lines of what is left of a script, each the part of it that is the line. A last part without a line feed is a
// line too. It is a type of its own since a loop in a function with a type parameter goes over no iterator that holds a
// closure.
#[derive(Drop)]
pub(crate) struct Lines<'a>(pub(crate) &'a [u8]);

impl<'a> Iterator for Lines<'a> {
    type Item = &'a [u8];

    ghost next_gives = { YieldsFirstBy (λ line. line.now) (λ s. lines_of s.0.now) };

    ghost remaining = { item_count (λ s. lines_of s.0.now) };

    fn next(&mut self) -> Option<&'a [u8]> {
        let part = self.0.split_inclusive(|byte| *byte == LINE_FEED).next()?;
        self.0 = &self.0[part.len()..];
        Some(part.strip_suffix(&[LINE_FEED]).unwrap_or(part))
    }
}
