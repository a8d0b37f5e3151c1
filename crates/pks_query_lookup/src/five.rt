//! The five databases.
ghost use Rattle.std.specs.Prelude.{◌≡◌, IfOk};
ghost use Rattle.pks_kf.specs.Known.{literals_of};
ghost use Rattle.pks_query_lookup.specs.Fives.{five_of};

use pks_kf::Kf;
use pks_kv::Kv;
use pks_kw::Kw;
use pks_kx::Kx;
use pks_lcw::Lcw;
use std::alloc::AllocError;

/// What an agent knows, each a set. `docs/RULES.md` says what each of them means.
#[derive(Drop)]
pub struct Five {
    /// The known literals.
    pub kf: Kf,
    /// The formulas that are known to be true or false.
    pub kw: Kw,
    /// The terms whose values are known.
    pub kv: Kv,
    /// The exclusive groups.
    pub kx: Kx,
    /// The closed regions.
    pub lcw: Lcw,
}

impl Five {
    /// The same five, all of whose memory is shared. The error is want of memory for a further reference to one of them.
    pub fn share(&self) -> Result<Five, AllocError>
        ensures { IfOk result (λ same. five_of same ≡ five_of self.now) }
    {
        let kf = self.kf.share()?;
        let kw = self.kw.share()?;
        let kv = self.kv.share()?;
        let kx = self.kx.share()?;
        let lcw = self.lcw.share()?;
        Ok(Five {
            kf,
            kw,
            kv,
            kx,
            lcw,
        })
    }

    /// The same five with other known literals. The error is want of memory for a further reference to one of them.
    pub fn with_known(&self, kf: Kf) -> Result<Five, AllocError>
        ensures five { IfOk result (λ next. five_of next ≡ record (five_of self.now) { kf = literals_of kf }) }
        ensures known { IfOk result (λ next. next.kf ≡ kf) }
    {
        let mut next = self.share()?;
        next.kf = kf;
        Ok(next)
    }
}
