//! The advisers of a search's workers.

use crate::before::Before;
use crate::keeping::Older;
use break_rules::NoMemory;
use kept_duties::Keeping;
use planning_words::{PlanWords, Progress, Shown, Until, Watched};
use shift_instance::{Instance, Rows};
use std::alloc::AllocError;
use std::sync::Arc;
use thorough_search::{Budget, Thorough};

/// What the advisers of a search are made of.
#[derive(Clone, Copy)]
pub(crate) struct Team<'a> {
    pub(crate) host: HostRuntime,
    /// The words that ask for the search.
    pub(crate) words: &'a PlanWords<'a>,
    /// How far the search has come.
    pub(crate) progress: &'a Arc<Progress>,
    /// The older plan of which it keeps what it can.
    pub(crate) older: &'a Older,
    /// The best plan of an old journal, where it begins with that. There is no older plan then.
    pub(crate) before: Option<&'a Before>,
    /// What the steps of each worker may take.
    pub(crate) budget: Budget,
    /// Where and how often the line of the search is said.
    pub(crate) shown: Shown,
}

/// An adviser of a worker.
type Worker = Watched<Keeping<Thorough<Until<HostRuntime>>>, HostRuntime>;

impl Team<'_> {
    /// What asks the search to stop.
    pub(crate) fn until(&self) -> Result<Until<HostRuntime>, AllocError> {
        Ok(Until::new(Arc::try_clone(self.progress)?, self.host))
    }

    /// An adviser that searches thoroughly for plans of the instance.
    fn thorough(
        &self,
        instance: &Instance,
        worker: u16,
    ) -> Result<Thorough<Until<HostRuntime>>, NoMemory> {
        let seed = u64::from(self.words.seed) + u64::from(worker);
        Thorough::within(
            self.host.alloc(),
            instance,
            seed,
            self.until()?,
            self.budget,
        )
    }

    /// The rows that the search begins with: those of an old journal's best plan, or else those of the older plan.
    fn begin(&self) -> &Rows {
        match self.before {
            Some(before) => &before.rows,
            None => &self.older.begin,
        }
    }

    /// The same adviser, which begins with an older plan or an old journal's where there is one, and whose plans keep what they can of the
    /// older one.
    fn keeping(
        &self,
        instance: &Instance,
        worker: u16,
    ) -> Result<Keeping<Thorough<Until<HostRuntime>>>, NoMemory> {
        let wanted = self.older.wanted.clone()?;
        let begin = self.begin().clone()?;
        let thorough = self.thorough(instance, worker)?;
        Keeping::new(self.host.alloc(), instance, thorough, wanted, begin)
    }

    /// The adviser of a worker: the same, which tells how far the search has come.
    pub(crate) fn watched(&self, instance: &Instance, worker: u16) -> Result<Worker, NoMemory> {
        let seen = Arc::try_clone(self.progress)?;
        let adviser = self.keeping(instance, worker)?;
        let alloc = self.host.alloc();
        Ok(Watched::new(alloc, adviser, worker, seen, self.host, self.shown))
    }
}
