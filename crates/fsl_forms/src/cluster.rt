//! Clusters list known artifacts.
ghost use Rattle.std.specs.Prelude.{◌≡◌, ◌++◌, IfOk, IsTrue, OnOk};
ghost use Rattle.fsl_card.specs.Cards.{IsReading, IsTextOf, text_of};
ghost use Rattle.fsl_forms.specs.Kinds.{IsCluster};
ghost use Rattle.fsl_forms.specs.WellFormed.{is_cluster_well_formed, rise_as_written};
ghost use Rattle.fsl_forms.specs.Writing.{IsClusterText, cluster_cards};
ghost use Rattle.fsl_forms.specs.Parts.{is_before_first};
ghost use Rattle.fsl_grammar.specs.Reading.{IsRead};

use fsl_card::{Card, Cards, finish};
use fsl_grammar::{RefForm, Unread, each, has_cluster_letters, know_refs, write_ref_card};
use fsl_name::Ref;
use fsl_text::{List, Memory, Text};
use std::alloc::Global;

/// A list of known artifacts: the references of its M cards.
#[derive(Drop)]
pub struct Cluster {
    pub members: List<Ref>,
}

impl Cluster {
    /// Reads a cluster from its cards. Returns `None` if their letters aren't those of a cluster, one M card or more and the Z
    /// card, or an M card has another argument than one reference. `Memory` is the only error.
    /// FORMATS: Kinds
    pub fn read(alloc: Global, cards: &Cards) -> Result<Option<Cluster>, Memory>
        ensures { IfOk result (IsReading IsCluster cards.now) }
    {
        match read_cards(alloc, cards.items()) {
            Ok(cluster) => Ok(Some(cluster)),
            Err(Unread::Form) => Ok(None),
            Err(Unread::Memory) => Err(Memory),
        }
    }

    /// Returns whether the cluster can be written: there are members, and they rise as they are written. It takes no memory.
    pub fn well_formed(&self) -> bool
        ensures { result ≡ is_cluster_well_formed self.now }
    {
        let members = self.members.items();
        !members.is_empty() && rise(members)
    }

    /// Writes the text of the cluster, its Z card included. It reads back as the cluster. `Memory` is the only error.
    /// FORMATS: Kinds
    pub fn write(&self, alloc: Global) -> Result<Text, Memory>
        requires { IsTrue (is_cluster_well_formed self.now) }
        ensures written { IfOk result (λ text. IsClusterText text self.now) }
        ensures read { IfOk result (λ text. IsTextOf IsCluster text self.now) }
    {
        know_refs(self.members.items());
        let mut lines = Text::empty(alloc);
        self.write_cards(&mut lines)?;
        finish(&mut lines)?;
        Ok(lines)
    }

    /// Writes all cards but the Z card at the end of a text.
    fn write_cards(&self, into: &mut Text) -> Result<(), Memory>
        ensures { OnOk result (into.new ≡ into.old ++ text_of (cluster_cards self.now)) }
    {
        for member in self.members.items() {
            write_ref_card(into, b'M', member)?;
        }
        Ok(())
    }
}

fn read_cards(alloc: Global, cards: &[Card]) -> Result<Cluster, Unread>
    ensures { IsRead IsCluster cards.now result }
{
    if !has_cluster_letters(cards) {
        return Err(Unread::Form);
    }
    let members = each::<RefForm>(alloc, cards, b'M')?;
    Ok(Cluster { members })
}

/// Returns whether members rise as they are written.
fn rise(members: &[Ref]) -> bool
    ensures { result ≡ rise_as_written members.now }
{
    let mut rest = members;
    while let Some((first, others)) = rest.split_first() {
        if !is_before_first(first, others) {
            return false;
        }
        rest = others;
    }
    true
}

/// Returns whether a member is written before the first of others, if there is one.
fn is_before_first(member: &Ref, others: &[Ref]) -> bool
    ensures { result ≡ is_before_first member.now others.now }
{
    match others.first() {
        Some(other) => member.is_written_before(other),
        None => true,
    }
}
