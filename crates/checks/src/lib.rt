// The chain of checks: for each kind, the first number of the table that applies, from 4 on. Every function is told the
// words that the kind's tests read, and takes any words.

#![tactic(auto)]

ghost use Rattle.std.specs.Prelude.{◌≡◌};
ghost use Rattle.rules.specs.Answers.{first, verdict_of};
ghost use Rattle.kinds.specs.Chains.{join_customer_rules, join_bench_rules, open_rules, update_rules, stock_rules, line_rules, sale_rules, shaken_rules, clear_rules, compare_rules, bench_rules, desk_rules, top_up_rules};

use rules::refusal::Refusal;

#[tactic(auto, unfolding(rules::specs::Answers::first, kinds::specs::Chains::join_customer_rules))]
pub fn join_customer(carnet: u32, budget: u32) -> Result<(), Refusal>
    ensures { verdict_of result ≡ first (join_customer_rules carnet budget) }
{
    if carnet == 1 {
        return Err(Refusal::InAlready);
    }
    if budget > 1000000 {
        return Err(Refusal::AboveBound);
    }
    Ok(())
}

#[tactic(auto, unfolding(rules::specs::Answers::first, kinds::specs::Chains::join_bench_rules))]
pub fn join_bench(till: u32) -> Result<(), Refusal>
    ensures { verdict_of result ≡ first (join_bench_rules till) }
{
    if till == 1 {
        return Err(Refusal::InAlready);
    }
    Ok(())
}

#[tactic(auto, unfolding(rules::specs::Answers::first, kinds::specs::Chains::open_rules))]
pub fn open(line: u32, bench: u32, customer: u32) -> Result<(), Refusal>
    ensures { verdict_of result ≡ first (open_rules line bench customer) }
{
    if line == 1 {
        return Err(Refusal::InAlready);
    }
    if bench != 1 || customer != 1 {
        return Err(Refusal::NotJoined);
    }
    Ok(())
}

#[tactic(auto, unfolding(rules::specs::Answers::first, kinds::specs::Chains::update_rules))]
pub fn update(view: u32, budget: u32, held: u32, left: usize, n: u32) -> Result<(), Refusal>
    ensures { verdict_of result ≡ first (update_rules view budget held left n) }
{
    if view != 1 {
        return Err(Refusal::NotJoined);
    }
    if budget < n {
        return Err(Refusal::OverBudget);
    }
    let total = held as usize + n as usize;
    if total > 32 {
        return Err(Refusal::ViewFull);
    }
    if left < total {
        return Err(Refusal::ListSpent);
    }
    Ok(())
}

#[tactic(auto, unfolding(rules::specs::Answers::first, kinds::specs::Chains::stock_rules))]
pub fn stock(view: u32, left: usize, n: u32) -> Result<(), Refusal>
    ensures { verdict_of result ≡ first (stock_rules view left n) }
{
    if view != 1 {
        return Err(Refusal::NotJoined);
    }
    if n > 32 {
        return Err(Refusal::AboveBound);
    }
    if left < n as usize {
        return Err(Refusal::ListSpent);
    }
    Ok(())
}

// A sale or a clear of either kind, so far as they are judged alike.
#[tactic(auto, unfolding(rules::specs::Answers::first, kinds::specs::Chains::line_rules))]
pub fn line(bench: u32, customer: u32, line: u32) -> Result<(), Refusal>
    ensures { verdict_of result ≡ first (line_rules bench customer line) }
{
    if bench != 1 || customer != 1 {
        return Err(Refusal::NotJoined);
    }
    if line != 1 {
        return Err(Refusal::NotOpen);
    }
    Ok(())
}

#[tactic(auto, unfolding(rules::specs::Answers::first, kinds::specs::Chains::sale_rules))]
pub fn sale(carnet: u32, line: u32, sales: u32, n: u32) -> Result<(), Refusal>
    ensures { verdict_of result ≡ first (sale_rules carnet line sales n) }
{
    if carnet < n {
        return Err(Refusal::CarnetShort);
    }
    let total = line as usize + n as usize;
    // One more sale has to fit too, unless no token is sold.
    if total > 32 || n != 0 && sales == 16 {
        return Err(Refusal::LineFull);
    }
    Ok(())
}

#[tactic(auto, unfolding(rules::specs::Answers::first, kinds::specs::Chains::shaken_rules))]
pub fn shaken(handshake: u32) -> Result<(), Refusal>
    ensures { verdict_of result ≡ first (shaken_rules handshake) }
{
    if handshake != 2 {
        return Err(Refusal::NoHandshake);
    }
    Ok(())
}

// A dead token stands in the way of a whole line alone.
#[tactic(auto, unfolding(rules::specs::Answers::first, kinds::specs::Chains::clear_rules))]
pub fn clear(whole: bool, dead: usize, n: usize) -> Result<(), Refusal>
    ensures { verdict_of result ≡ first (clear_rules whole dead n) }
{
    if whole && dead < n {
        return Err(Refusal::DeadToken);
    }
    Ok(())
}

// Either authentication, so far as both are judged alike.
#[tactic(auto, unfolding(rules::specs::Answers::first, kinds::specs::Chains::compare_rules))]
fn compare(till: u32, view: u32, mine: u32, theirs: u32) -> Result<(), Refusal>
    ensures { verdict_of result ≡ first (compare_rules till view mine theirs) }
{
    if till == 0 || view == 0 {
        return Err(Refusal::NoToken);
    }
    if mine != theirs {
        return Err(Refusal::Unlike);
    }
    Ok(())
}

#[tactic(auto, unfolding(rules::specs::Answers::first, kinds::specs::Chains::bench_rules))]
pub fn bench_authenticates(
    used: u32,
    till: u32,
    view: u32,
    mine: u32,
    theirs: u32,
) -> Result<(), Refusal>
    ensures { verdict_of result ≡ first (bench_rules used till view mine theirs) }
{
    if used != 1 {
        return Err(Refusal::NotJoined);
    }
    compare(till, view, mine, theirs)
}

#[tactic(auto, unfolding(rules::specs::Answers::first, kinds::specs::Chains::desk_rules))]
pub fn desk_authenticates(
    used: u32,
    handshake: u32,
    till: u32,
    view: u32,
    mine: u32,
    theirs: u32,
) -> Result<(), Refusal>
    ensures { verdict_of result ≡ first (desk_rules used handshake till view mine theirs) }
{
    if used != 1 {
        return Err(Refusal::NotJoined);
    }
    if handshake != 1 {
        return Err(Refusal::NoHandshake);
    }
    compare(till, view, mine, theirs)
}

// Any words may be told, so `total + n`, which may not fit, is never formed.
#[tactic(auto, unfolding(rules::specs::Answers::first, kinds::specs::Chains::top_up_rules))]
pub fn top_up(view: u32, total: u64, most: u64, n: u32) -> Result<(), Refusal>
    ensures { verdict_of result ≡ first (top_up_rules view total most n) }
{
    if view != 1 {
        return Err(Refusal::NotJoined);
    }
    if most < total || most - total < u64::from(n) {
        return Err(Refusal::AboveBound);
    }
    Ok(())
}
