//! A work that puts a few texts.
ghost use Rattle.std.specs.Prelude.{◌≡◌, ◌<◌, None, OnOk};
ghost use Rattle.laws_openings.specs.Lives.{IsWork};
ghost use Rattle.tests_laws.specs.Texts.{PutsText, PutsTexts};

use crate::crashes::Fused;
use fsl_name::Name;
use fsl_repo::Repo;
use fsl_text::{Memory, Steps, Text};
use laws_openings::Work;
use std::marker::Brand;
use std::sync::ledger::{Blank, Ledger};

/// Some texts that arrive under their own names, and whether somebody waits for their commit.
#[derive(Drop)]
pub struct Arrives {
    pub texts: Vec<Text>,
    pub is_heard: bool,
}

fn arrive_counted<L: Ledger>(
    repo: &mut Repo<Fused>,
    text: &[u8],
    blank: Blank,
) -> Result<(), Memory>
    requires name { blank.name ≡ L.name }
    requires parts { blank.parts ≡ L.parts }
    requires counts { 0 < L.parts }
    requires runs { repo.old.seen.state.stopped ≡ None }
    ensures disk { repo.new.disk ≡ repo.old.disk }
    ensures put { OnOk result (IsWork (PutsText text.now) repo.old repo.new) }
{
    let mut steps: Steps<L> = Steps::new(blank);
    match repo.arrive(Name::of(text), text, false, &mut steps) {
        Ok(_) => Ok(()),
        Err(_) => Err(Memory),
    }
}

/// A text arrives. A work has no other error, so whatever refuses it is told as want of memory.
fn arrive(repo: &mut Repo<Fused>, text: &[u8]) -> Result<(), Memory>
    requires { repo.old.seen.state.stopped ≡ None }
    ensures disk { repo.new.disk ≡ repo.old.disk }
    ensures put { OnOk result (IsWork (PutsText text.now) repo.old repo.new) }
{
    arrive_counted::<Brand>(repo, text, Blank::new(1))
}

/// Some texts arrive, one after the other.
fn arrive_all(repo: &mut Repo<Fused>, texts: &[Text]) -> Result<(), Memory>
    requires { repo.old.seen.state.stopped ≡ None }
    ensures disk { repo.new.disk ≡ repo.old.disk }
    ensures put { OnOk result (IsWork (PutsTexts texts.now) repo.old repo.new) }
{
    for text in texts {
        arrive(repo, text.bytes())?;
    }
    Ok(())
}

impl Work<Fused> for Arrives {
    ghost puts = { λ w. PutsTexts w.texts.items };

    ghost heard = { λ w. w.is_heard };

    fn is_heard(&self) -> bool {
        self.is_heard
    }

    fn work(&self, repo: &mut Repo<Fused>) -> Result<(), Memory> {
        arrive_all(repo, &self.texts)
    }
}
