// A desk, and what can be read on it.
ghost use Rattle.std.specs.Prelude.{◌≡◌, [], IfOk};
ghost use Rattle.surveying.specs.Desks.{desk_findings, desk_orders};

use crate::desk::{Kept, SurveyDesk};
use crate::finding::Finding;
use gathering::bay::Bay;
use operations::room::Room;
use std::alloc::{AllocError, Global};
use values::kind::Kind;

impl<V: Kind> SurveyDesk<V> {
    // A desk with nothing on it.
    pub fn new(heap: Global) -> Result<SurveyDesk<V>, AllocError>
        ensures { IfOk result (λ desk. (desk_findings desk ≡ []) × (desk_orders desk ≡ [])) }
    {
        let rows = Room::new(heap)?;
        let findings = Room::new(heap)?;
        let orders = Room::new(heap)?;
        Ok(SurveyDesk {
            rows,
            bay: Bay::new(),
            kept: Kept { findings, orders },
        })
    }

    pub fn findings(&self) -> &[Finding]
        ensures { result.now ≡ desk_findings self.now }
    {
        self.kept.findings.as_slice()
    }

    pub fn orders(&self) -> &[usize]
        ensures { result.now ≡ desk_orders self.now }
    {
        self.kept.orders.as_slice()
    }
}
