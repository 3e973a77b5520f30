//! Advices, and one whose cycle is taken away.
use sdd_advise::{Advice, Edges, advise, check_advice};
use sdd_script::{Catalogue, NoMemory};
use std::alloc::Global;

pub fn are_judged(alloc: Global, catalogue: &Catalogue) -> Result<bool, NoMemory> {
    let mut advices = advise(alloc, catalogue)?;
    match advices.last_mut() {
        Some(last) => is_judged(alloc, catalogue, last),
        None => Ok(false),
    }
}

fn is_judged(alloc: Global, catalogue: &Catalogue, advice: &mut Advice) -> Result<bool, NoMemory> {
    if !check_advice(alloc, catalogue, advice)? {
        return Ok(false);
    }
    advice.cycle = Edges::from_vec(Vec::new(alloc));
    Ok(!check_advice(alloc, catalogue, advice)?)
}
