//! Puts crews and passes together as jobs, and takes jobs apart.
ghost use Rattle.std.specs.Prelude.{◌≡◌, ◌<◌, ◌≤◌, map, vec_len, vec_capacity};

use crate::crews::Job;
use crate::work::{Crew, Work};

/// Gives each crew its pass. The list has room for all jobs.
pub(crate) fn staffed<A, G, C, P>(
    mut jobs: Vec<Job<A, G, C, P>>,
    crews: &mut Vec<Crew<A, G, C>>,
    passes: &mut Vec<P>,
) -> Vec<Job<A, G, C, P>>
    requires empty { vec_len jobs ≡ 0 }
    requires room { vec_len crews.old ≤ vec_capacity jobs }
    requires each { vec_len crews.old ≡ vec_len passes.old }
    ensures crews { map (λ j. j.crew) result.items ≡ crews.old.items }
    ensures passes { map (λ j. j.pass) result.items ≡ passes.old.items }
    ensures empty { (vec_len crews.new ≡ 0) × (vec_len passes.new ≡ 0) }
    ensures room { (vec_capacity crews.new ≡ vec_capacity crews.old) × (vec_capacity passes.new ≡ vec_capacity passes.old) }
{
    while crews.len() > 0 {
        let crew = crews.remove(0);
        let pass = passes.remove(0);
        let job = Job {
            crew,
            pass,
            work: Work {
                sessions: 0,
                failed: false,
            },
        };
        jobs.push(job).unwrap();
    }
    jobs
}

/// Takes the jobs apart.
pub(crate) fn dismissed<A, G, C, P>(
    mut jobs: Vec<Job<A, G, C, P>>,
    crews: &mut Vec<Crew<A, G, C>>,
    passes: &mut Vec<P>,
    mut works: Vec<Work>,
) -> Vec<Work>
    requires empty { (vec_len crews.old ≡ 0) × (vec_len passes.old ≡ 0) × (vec_len works ≡ 0) }
    requires room { (vec_len jobs ≤ vec_capacity crews.old) × (vec_len jobs ≤ vec_capacity passes.old) × (vec_len jobs ≤ vec_capacity works) }
    ensures crews { crews.new.items ≡ map (λ j. j.crew) jobs.items }
    ensures passes { passes.new.items ≡ map (λ j. j.pass) jobs.items }
    ensures works { result.items ≡ map (λ j. j.work) jobs.items }
{
    while jobs.len() > 0 {
        let Job { crew, pass, work } = jobs.remove(0);
        crews.push(crew).unwrap();
        passes.push(pass).unwrap();
        works.push(work).unwrap();
    }
    jobs.destroy_empty();
    works
}
