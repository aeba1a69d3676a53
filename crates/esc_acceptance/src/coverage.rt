//! Which fields the objects of a registry have.

ghost use Rattle.std.specs.Prelude.{◌≡◌, [], ◌∷◌, ◌++◌, List, IfOk};
ghost use Rattle.std.specs.List.{list_all};
ghost use Rattle.esc_apply.specs.ObjectStreams.{Entry};
ghost use Rattle.esc_acceptance.specs.Guides.{has_guide, lacking_guides, IsCoverageOf};

use crate::guide::Guide;
use crate::guides::{all_guides, has_guide};
use esc_bundle::NoMemory;
use esc_tables::{Key, Object};
use std::alloc::Global;

/// Which of the fields by which links, statuses and dates go the objects have.
#[derive(Drop)]
pub struct Coverage {
    /// Those that each object has that is of the kind for it.
    pub common: Vec<Guide>,
}

impl Coverage {
    /// That of no objects.
    pub fn new(alloc: Global) -> Result<Coverage, NoMemory>
        ensures { IfOk result (IsCoverageOf []) }
    {
        Ok(Coverage {
            common: Vec::from_slice(alloc, &all_guides())?,
        })
    }

    /// Takes in one more object.
    pub fn add(&mut self, key: &Key, object: &Object)
        ensures { (es : List Entry) → IsCoverageOf es self.old
            → IsCoverageOf (es ++ (key.now, object.now) ∷ []) self.new }
    {
        self.common.retain(|guide| has_guide(*guide, key, object));
    }

    /// The fields that some object lacks, of the kind that has them.
    pub fn lacking(&self, alloc: Global) -> Result<Vec<Guide>, NoMemory>
        ensures { IfOk result (λ lacking. (es : List Entry) → IsCoverageOf es self.now
            → lacking.items ≡ lacking_guides es) }
    {
        let mut lacking = Vec::new(alloc);
        for guide in all_guides() {
            if self.is_common(guide) {
                continue;
            }
            lacking.push(guide)?;
        }
        Ok(lacking)
    }

    // Whether each object has a field, if it is of the kind for it.
    fn is_common(&self, guide: Guide) -> bool
        ensures { (es : List Entry) → IsCoverageOf es self.now
            → result ≡ list_all (has_guide guide) es }
    {
        self.common.contains(&guide)
    }
}
