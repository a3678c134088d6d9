//! What loads of two sources of pairs are given.
ghost use Rattle.std.specs.Prelude.{◌≡◌, ◌*◌};
ghost use Rattle.df_load_tests.specs.Pairs.{pairs_of};
ghost use Rattle.df_load_tests.specs.PairsLoads.{HaveFewJobs};

use crate::given::groups;
use crate::pairs::Pairs;
use df_plan::CheckedPlan;
use df_value::Text;
use std::alloc::{AllocError, Global};

/// The views and sources of a load. They are made before a hall is there, which cannot just be dropped.
#[derive(Drop)]
pub struct PairsLoad {
    pub views: Vec<(Text, CheckedPlan)>,
    pub sources: [Pairs; 2],
    ghost few: { HaveFewJobs (λ s. pairs_of s.schema s.step s.count) (λ s n. n * s.step) sources },
}

impl PairsLoad {
    /// Views of these names; of the source of each frame, how many chunks it has and by how much their first numbers
    /// rise.
    pub fn new(
        alloc: Global,
        names: &[&str],
        sources: [(u8, u8); 2],
    ) -> Result<PairsLoad, AllocError> {
        let [zeroth, first] = sources;
        let views = views(alloc, names)?;
        let sources = [
            Pairs::new(alloc, zeroth.0, zeroth.1)?,
            Pairs::new(alloc, first.0, first.1)?,
        ];
        Ok(PairsLoad { views, sources })
    }

    /// How often each source was asked for a chunk.
    pub fn calls(&self) -> [u64; 2] {
        [self.sources[0].calls(), self.sources[1].calls()]
    }
}

// Views of the first frame under these names.
fn views(alloc: Global, names: &[&str]) -> Result<Vec<(Text, CheckedPlan)>, AllocError> {
    let mut views = Vec::new(alloc);
    for name in names {
        views.push((Text::from_str(alloc, *name)?, groups(alloc)?))?;
    }
    Ok(views)
}
