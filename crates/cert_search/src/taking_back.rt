//! Takes back the hands of a deal, which shows that each claim was taken once.
ghost use Rattle.std.specs.Prelude.{◌≡◌, ◌++◌, map, IfOk, IfErr};
ghost use Rattle.volume_model.specs.declared.fault.Fault.TheVariants.{NoMemory};
ghost use Rattle.cert_search.specs.NamedViews.{own_named, handle_named};
ghost use Rattle.cert_search.specs.Dealing.{names_in};
ghost use Rattle.cert_search.specs.Settled.{all_others, hand_own, AreOfOneDeal, AreTied, EachHad, EachSettles, EachTaken, HadOnce};

use crate::hand::Hand;
use crate::own::Own;
use crate::steal_handle::StealHandle;
use std::alloc::{AllocError, Global};
use volume_model::Fault;

/// Takes back all hands of a deal, in order. Its contract says that no claim was taken by two of them, or twice by one.
/// Each claim of a deque was taken if some hand took an end mark of that deque; a hand for which [`take`](Hand::take)
/// returned `None` has taken one of each.
///
/// # Errors
/// [`NoMemory`](Fault::NoMemory) if memory runs out.
pub fn settle(alloc: Global, hands: Vec<Hand>) -> Result<(), Fault>
    requires { AreOfOneDeal hands.items }
    ensures once { IfOk result (λ _. HadOnce hands.items) }
    ensures each { IfOk result (λ _. EachHad hands.items) }
    ensures fault { IfErr result (λ f. f ≡ NoMemory) }
{
    let (mut owns, handles) = parts_of(alloc, hands)?;
    gather(&mut owns, handles);
    learn_all(&mut owns);
    Ok(())
}

// Returns the hands' own deques in order, and their views of other deques.
fn parts_of(alloc: Global, hands: Vec<Hand>) -> Result<(Vec<Own>, Vec<StealHandle>), AllocError>
    ensures { IfOk result (λ p. (map own_named p.0.items ≡ map hand_own hands.items)
        × (map handle_named p.1.items ≡ all_others hands.items)) }
{
    let mut owns = Vec::new(alloc);
    let mut handles = Vec::new(alloc);
    for hand in hands {
        let (own, others) = hand.into_parts();
        owns.push(own)?;
        push_all(&mut handles, others)?;
    }
    Ok((owns, handles))
}

// Appends the views of a hand.
fn push_all(handles: &mut Vec<StealHandle>, others: Vec<StealHandle>) -> Result<(), AllocError>
    ensures { IfOk result (λ _. map handle_named handles.new.items ≡ map handle_named handles.old.items
        ++ map handle_named others.items) }
{
    for steal_handle in others {
        handles.push(steal_handle)?;
    }
    Ok(())
}

// Gives each view back to the worker that owns its deque.
fn gather(owns: &mut Vec<Own>, handles: Vec<StealHandle>)
    requires { AreTied (names_in owns.old.items) (map handle_named handles.items) }
    ensures { EachTaken owns.old.items (map handle_named handles.items) owns.new.items }
{
    for steal_handle in handles {
        let own = &mut owns[steal_handle.which];
        own.take_back(steal_handle);
    }
}

// Lets each owner learn from its view which claims were taken.
fn learn_all(owns: &mut Vec<Own>)
    ensures { EachSettles owns.old.items }
{
    for d in 0..owns.len() {
        let own = &mut owns[d];
        own.learn();
    }
}
