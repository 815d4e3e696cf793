//! Strings in an order of work.
ghost use Rattle.std.specs.Prelude.{◌≡◌, All, IfOk, length, map};
ghost use Rattle.std.specs.List.{range_with_len};
ghost use Rattle.board_loops.specs.Loops.{IsInOrder, IsWithin};
ghost use Rattle.board_loops.specs.Numbers.{IsLowered};
ghost use Rattle.board_loops.specs.Jobs.{IsJobOf, place_of};

use crate::net_loops::Dependency;
use std::alloc::{AllocError, Global};

/// What is to be done for the string at a place, with the number of its target's net.
#[derive(Clone, Copy)]
struct Job {
    number: usize,
    place: usize,
}

/// An order of work, by numbers of the nets that each string lowers. Refused where memory runs out.
pub(crate) fn order_by(
    alloc: Global,
    strings: &[Dependency],
    numbers: &[usize],
) -> Result<Vec<usize>, AllocError>
    requires within { All (IsWithin (length numbers.now)) strings.now }
    requires lowered { All (IsLowered numbers.now) strings.now }
    ensures { IfOk result (λ v. IsInOrder strings.now v.items) }
{
    let mut jobs = jobs_of(alloc, strings, numbers)?;
    jobs.sort_by_key(|job| job.number)?;
    let order = places_of(alloc, &jobs)?;
    Ok(order)
}

/// The jobs of the strings, one after another.
fn jobs_of(alloc: Global, strings: &[Dependency], numbers: &[usize]) -> Result<Vec<Job>, AllocError>
    requires { All (IsWithin (length numbers.now)) strings.now }
    ensures places { IfOk result (λ v. map place_of v.items ≡ range_with_len 0 (length strings.now)) }
    ensures jobs { IfOk result (λ v. All (IsJobOf strings.now numbers.now) v.items) }
{
    let mut jobs = Vec::with_capacity(alloc, strings.len())?;
    for (place, string) in strings.iter().enumerate() {
        jobs.push(Job {
            number: numbers[string.target],
            place,
        })?;
    }
    Ok(jobs)
}

fn places_of(alloc: Global, jobs: &[Job]) -> Result<Vec<usize>, AllocError>
    ensures { IfOk result (λ v. v.items ≡ map place_of jobs.now) }
{
    jobs.iter().map(|job| job.place).collect(alloc)
}
