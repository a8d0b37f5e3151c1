//! Literals that an action leaves as they are. `docs/RULES.md` has the rule on settling.
ghost use Rattle.std.specs.Prelude.{◌≡◌, ◌++◌, not, OnOk};
ghost use Rattle.pks_kf.specs.Known.{literals_of};
ghost use Rattle.pks_terms.specs.Spoiling.{spoils};
ghost use Rattle.pks_terms.specs.Syntax.{negated};
ghost use Rattle.pks_terms.specs.Views.{literal_of, literals_in};
ghost use Rattle.pks_query_lookup.specs.Fives.{five_of};
ghost use Rattle.pks_postdict_rules.specs.Changes.{signature_in, before_in, effects_by};
ghost use Rattle.pks_postdict_rules.specs.News.{is_in, news_of};

use crate::change::Change;
use pks_kf::Kf;
use pks_query_lookup::derived::Derived;
use pks_terms::literal::Literal;
use std::alloc::AllocError;

/// Whether the literal is among these.
#[tactic(auto, using(crate::proofs::Found::is_literal_among))]
fn is_in(kf: &Kf, l: &Literal) -> bool
    ensures { result ≡ is_in (literals_of kf.now) (literal_of l.now) }
{
    kf.has(l)
}

/// Puts those of the literals that last which aren't known afterwards after the others.
pub(crate) fn put_lasting_news(
    to: &mut Vec<Literal>,
    change: &Change<'_>,
    after: &Derived,
) -> Result<(), AllocError>
    ensures { OnOk result (literals_in to.new.items ≡ literals_in to.old.items ++ news_of (λ l. not (spoils (signature_in change.now) (before_in change.now) (effects_by change.now) l)) (five_of after.now).kf (before_in change.now).kf) }
{
    let known = &after.five().kf;
    for l in change.before.five().kf.items() {
        if !is_in(known, l) && !change.spoils(l) {
            to.push(*l)?;
        }
    }
    Ok(())
}

/// Puts those of the literals that must have been there which aren't known before after the others.
pub(crate) fn put_lasted_news(
    to: &mut Vec<Literal>,
    change: &Change<'_>,
    after: &Derived,
) -> Result<(), AllocError>
    ensures { OnOk result (literals_in to.new.items ≡ literals_in to.old.items ++ news_of (λ l. not (spoils (signature_in change.now) (before_in change.now) (effects_by change.now) (negated l))) (before_in change.now).kf (five_of after.now).kf) }
{
    let known = &change.before.five().kf;
    for l in after.five().kf.items() {
        if !is_in(known, l) && !change.spoils(&l.negated()) {
            to.push(*l)?;
        }
    }
    Ok(())
}
