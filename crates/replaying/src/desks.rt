// What can be done with a desk.
ghost use Rattle.std.specs.Prelude.{◌≡◌, [], IfOk};

use crate::answer::Answer;
use crate::desk::Desk;
use std::alloc::{AllocError, Global};
use surveying::desk::SurveyDesk;
use values::kind::Kind;

impl<V: Kind> Desk<V> {
    // A desk for scripts of at most so many calls.
    pub fn new(heap: Global, places: usize) -> Result<Desk<V>, AllocError>
        ensures { IfOk result (λ desk. (desk.places ≡ places) × (desk.answers.items ≡ [])) }
    {
        let answers = Vec::with_capacity(heap, places)?;
        let surveys = SurveyDesk::new(heap)?;
        Ok(Desk {
            answers,
            places,
            surveys,
            heap,
        })
    }

    // The answers to the script that was run last, in the order of its calls.
    pub fn answers(&self) -> &[Answer]
        ensures { result.now ≡ self.now.answers.items }
    {
        self.answers.as_slice()
    }
}
