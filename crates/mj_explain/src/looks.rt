// Looks at a name.

ghost use Rattle.std.specs.Prelude.{◌≡◌, ◌||◌, option_copied};
ghost use Rattle.std.specs.Option.{option_map};
ghost use Rattle.std.specs.Ordering.{is_lt};
ghost use Rattle.mj_subs.specs.Collation.{subscript_cmp, subscripts_cmp};
ghost use Rattle.mj_store.specs.Nodes.{along, is_empty};
ghost use Rattle.mj_store.specs.Questions.{same_word, with_subscripts, rest_of};
ghost use Rattle.mj_txlog.specs.Laid.{is_before};
ghost use Rattle.mj_explain.specs.Looks.{data_leaves_out, stands_past, next_leaves_out, order_leaves_out, has_more, stands_along, query_leaves_out};
ghost use Rattle.mj_explain.specs.Looks.{is_look, looks, is_look_of, LooksTell};

use mj_ask::{Ask, Noted, Reply, SharedAsk};
use mj_store::{Access, Answer, Direction, strip};
use mj_subs::{Name, Sub};

/// Whether a job looks at a name there: it reads its text, or is told what can't be so where the name has a text.
pub fn is_look_of(job: u32, name: &Name, event: Option<&Noted>) -> bool
    ensures { result ≡ is_look_of job name.now (option_copied event.entry) }
{
    match event {
        None => false,
        Some(event) => event.job == job && looks(name, &event.ask, &event.reply),
    }
}

/// Where a name has a text, a look at it is answered that text, and no look is answered otherwise.
pub fn looks_tell()
    ensures { LooksTell }
{}

// Whether what is asked and told is a look at a name.
fn looks(name: &Name, ask: &Ask, reply: &Reply) -> bool
    ensures { result ≡ looks name.now ask.now reply.now }
{
    match (ask, reply) {
        (Ask::Shared(SharedAsk::Access(access)), Reply::Answer(answer)) => {
            is_look(name, access, answer)
        }
        _ => false,
    }
}

// Whether an access that is answered so is one.
fn is_look(name: &Name, access: &Access, answer: &Answer) -> bool
    ensures { result ≡ is_look name.now access.now answer.now }
{
    match (access, answer) {
        (Access::Value(other), Answer::Value(_)) => other.get() == name,
        (Access::Data(other), Answer::Data(told)) => {
            let other = other.get();
            data_leaves_out(rest_of(other, other.subscripts().as_slice(), name), *told)
        }
        (Access::Order(other, way), Answer::Order(next)) => {
            order_leaves_out(name, other.get(), *way, next.as_ref())
        }
        (Access::Query(other), Answer::Query(Some(next))) => {
            query_leaves_out(name, other.get(), Some(next.get()))
        }
        (Access::Query(other), Answer::Query(None)) => query_leaves_out(name, other.get(), None),
        _ => false,
    }
}

// Whether a number of `$DATA` says that a name has no text, which has this behind the one that was asked for.
fn data_leaves_out(rest: Option<&[Sub]>, told: u8) -> bool
    ensures { result ≡ data_leaves_out (option_copied rest.entry) told }
{
    match rest {
        None => false,
        Some([]) => told == 0 || told == 10,
        Some([_, ..]) => told == 0 || told == 1,
    }
}

// Whether a next subscript of `$ORDER` says that a name has no text.
fn order_leaves_out(name: &Name, asked: &Name, way: Direction, next: Option<&Sub>) -> bool
    ensures { result ≡ order_leaves_out name.now asked.now asked.now.subscripts way (option_copied next.entry) }
{
    match asked.subscripts().as_slice().split_last() {
        None => false,
        Some((last, front)) => next_leaves_out(way, last, rest_of(asked, front, name), next),
    }
}

// Whether it says that of a name that has these subscripts from the place on that was looked along.
fn next_leaves_out(way: Direction, last: &Sub, rest: Option<&[Sub]>, next: Option<&Sub>) -> bool
    ensures { result ≡ next_leaves_out way last.now (option_copied rest.entry) (option_copied next.entry) }
{
    match rest {
        Some([sub, ..]) => stands_past(way, last, sub) && stands_before(way, sub, next),
        _ => false,
    }
}

/// Whether a name stands at the place that `$ORDER` looks along, or below it.
pub fn stands_along(name: &Name, asked: &Name) -> bool
    ensures { result ≡ stands_along name.now asked.now asked.now.subscripts }
{
    match asked.subscripts().as_slice().split_last() {
        None => false,
        Some((_, front)) => has_more(rest_of(asked, front, name)),
    }
}

// Whether there is a list, and something in it.
fn has_more(rest: Option<&[Sub]>) -> bool
    ensures { result ≡ has_more (option_copied rest.entry) }
{
    matches!(rest, Some([_, ..]))
}

// Whether a subscript stands past another in a direction.
fn stands_past(way: Direction, last: &Sub, sub: &Sub) -> bool
    ensures { result ≡ stands_past way last.now sub.now }
{
    last.is_empty() || stands_so(way, last, sub)
}

// Whether it stands before the next one, if there is one.
fn stands_before(way: Direction, sub: &Sub, next: Option<&Sub>) -> bool
    ensures { result ≡ is_before (along way subscript_cmp) sub.now (option_copied next.entry) }
{
    match next {
        None => true,
        Some(next) => stands_so(way, sub, next),
    }
}

// Whether subscripts follow each other in a direction.
fn stands_so(way: Direction, first: &Sub, second: &Sub) -> bool
    ensures { result ≡ is_lt (along way subscript_cmp first.now second.now) }
{
    match way {
        Direction::Forward => first.cmp(second).is_lt(),
        Direction::Backward => second.cmp(first).is_lt(),
    }
}

// Whether a next name of `$QUERY` says that a name has no text.
fn query_leaves_out(name: &Name, asked: &Name, next: Option<&Name>) -> bool
    ensures { result ≡ query_leaves_out name.now asked.now (option_copied next.entry) }
{
    is_same_word(asked, name)
        && asked.subscripts().cmp(name.subscripts()).is_lt()
        && is_before(name, next)
}

// Whether a name stands before the next one by its subscripts, if there is one.
fn is_before(name: &Name, next: Option<&Name>) -> bool
    ensures { result ≡ is_before subscripts_cmp name.now.subscripts (option_map (λ x. x.subscripts) (option_copied next.entry)) }
{
    match next {
        None => true,
        Some(next) => name.subscripts().cmp(next.subscripts()).is_lt(),
    }
}

/// Whether names are of one kind and word.
pub fn is_same_word(one: &Name, other: &Name) -> bool
    ensures { result ≡ same_word one.now other.now }
{
    one.is_global() == other.is_global() && one.word() == other.word()
}

/// The subscripts that a name has behind those of `front`, where it is of the other's kind and word and begins with them.
pub fn rest_of<'a>(other: &Name, front: &[Sub], name: &'a Name) -> Option<&'a [Sub]>
    ensures { option_copied result ≡ rest_of (with_subscripts other.now front.now) name.now }
{
    if !is_same_word(other, name) {
        return None;
    }
    strip(front, name.subscripts().as_slice())
}
