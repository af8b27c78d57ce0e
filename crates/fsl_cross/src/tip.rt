//! Finds the latest of some check-ins.
ghost use Rattle.std.specs.Prelude.{◌≡◌, ◌++◌, filter_map, option_map, codes, IfOk};
ghost use Rattle.std.specs.Ordering.{is_lt};
ghost use Rattle.fsl_order.specs.Names.{dated_cmp};
ghost use Rattle.fsl_order.specs.Rows.{greater, greatest};
ghost use Rattle.fsl_cross.specs.Inside.{dated_over};

use crate::checkin::{date, manifest};
use crate::items::Items;
use fsl_date::Moment;
use fsl_name::Name;
use fsl_tags::Tags;
use fsl_text::{Memory, Text};
use std::alloc::Global;
use std::marker::Model;

/// A check-in with its date. Contracts see it as their pair.
#[derive(Drop)]
struct Dated {
    date: Moment,
    name: Name,
}

impl Model for Dated {
    ghost use Rattle.std.specs.Prelude.{List, ℕ};

    ghost Value = { ℕ × List ℕ };

    ghost view = { λ d. (d.date, d.name) };
}

impl Dated {
    /// Whether the date is less than another's, or at one date the name.
    fn is_before(&self, other: &Dated) -> bool
        ensures { result ≡ is_lt (dated_cmp self.now other.now) }
    {
        let by_name = self.name.cmp(&other.name);
        self.date.cmp(&other.date).then(by_name).is_lt()
    }
}

/// The tag of a symbolic name: `sym-` and the name. `Memory` is the only error.
pub(crate) fn tag_of(alloc: Global, symbol: &[u8]) -> Result<Text, Memory>
    ensures { IfOk result (λ tag. tag ≡ codes "sym-" ++ symbol.now) }
{
    let mut tag = Text::of(alloc, b"sym-")?;
    tag.append(symbol)?;
    Ok(tag)
}

/// The check-in of a name with its date. None where there is no such check-in.
fn dated_checkin(items: &Items, tags: &Tags, name: Name) -> Option<Dated>
    ensures { result ≡ dated_over tags.now.facts items.now name }
{
    let item = items.get(name)?;
    let manifest = manifest(item.artifact())?;
    Some(Dated {
        date: date(tags, name, manifest),
        name,
    })
}

/// The later of two check-ins that may be there.
fn later(best: Option<Dated>, other: Option<Dated>) -> Option<Dated>
    ensures { result ≡ greater dated_cmp best other }
{
    let Some(found) = best else {
        return other;
    };
    let Some(next) = other else {
        return Some(found);
    };
    if found.is_before(&next) {
        Some(next)
    } else {
        Some(found)
    }
}

/// The latest of the check-ins of some names.
pub(crate) fn latest(items: &Items, tags: &Tags, names: &[Name]) -> Option<Name>
    ensures { result ≡ option_map (λ c. c.1) (greatest dated_cmp (filter_map (dated_over tags.now.facts items.now) names.now)) }
{
    let mut best = None;
    for name in names {
        best = later(best, dated_checkin(items, tags, *name));
    }
    match best {
        Some(dated) => Some(dated.name),
        None => None,
    }
}
