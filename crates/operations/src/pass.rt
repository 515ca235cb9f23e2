// Passes over sources.
ghost use Rattle.std.specs.Prelude.{◌≡◌};
ghost use Rattle.std.specs.Iterator.{YieldsFirstBy, item_count};
ghost use Rattle.operations.specs.Passes.{coming};

use crate::operation::Operation;
use crate::source::Source;

// A pass over a source gives its operations in their order, and asks for each once.
#[derive(Drop)]
pub struct Pass<'a, S> {
    source: &'a S,
    position: usize,
}

impl<'a, S: Source> Pass<'a, S> {
    // A pass with all operations still to come.
    pub fn over(source: &'a S) -> Pass<'a, S>
        ensures { coming S.Source.onward result ≡ S.Source.operations source.now }
    {
        Pass {
            source,
            position: 0,
        }
    }
}

impl<'a, S: Source> Iterator for Pass<'a, S> {
    type Item = Operation<S::Value>;

    ghost next_gives = { YieldsFirstBy (λ operation. operation.row) (coming S.Source.onward) };

    ghost remaining = { item_count (coming S.Source.onward) };

    fn next(&mut self) -> Option<Operation<S::Value>> {
        let step = self.source.next(self.position)?;
        self.position = step.next;
        Some(step.operation)
    }
}
