// Routes, which are dropped, and the address behind them: RFC 822, section 6.1.
// A token is places without its line: that it stands there is asked beside it.
// A buffer is lent with room for all of the text, which is asked: nothing is allocated, and whose room it is only the caller knows.
ghost use Rattle.std.specs.Prelude.{◌≡◌, false, ◌≤◌, length};
ghost use Rattle.lexical.specs.Answers.{Stands, tokens_of};
ghost use Rattle.mailbox_address.specs.Answers.{ReadsRoute, ReadsSpec, atom_step, behind_step, element_step, is_over, route_step, spec_text, special_step};
ghost use Rattle.mailbox_address.specs.Grammar.{addr_spec, closed_by, element, optional_route, route, route_addr};

use crate::read::{SpecRead, addr_spec, is_special, is_word};
use lexical::token::{Kind, Lexeme, next_token};

// Where in a route a token stands: where an element may begin, none or one having been there, where a sub-domain must stand, or behind one; or
// that the route is over.
#[derive(Clone, Copy)]
pub enum RouteState {
    Start,
    Element,
    SubDomain,
    Behind,
    Over,
}

// A special where an element may begin: a comma ends a null element, which does not count.
fn element_step(b: u8, seen: bool) -> Option<RouteState>
    ensures { result ≡ element_step b seen }
{
    match b {
        b'@' => Some(RouteState::SubDomain),
        b',' if seen => Some(RouteState::Element),
        b',' => Some(RouteState::Start),
        b':' if seen => Some(RouteState::Over),
        _ => None,
    }
}

// A special behind a sub-domain.
fn behind_step(b: u8) -> Option<RouteState>
    ensures { result ≡ behind_step b }
{
    match b {
        b'.' => Some(RouteState::SubDomain),
        b',' => Some(RouteState::Element),
        b':' => Some(RouteState::Over),
        _ => None,
    }
}

fn special_step(state: RouteState, b: u8) -> Option<RouteState>
    ensures { result ≡ special_step state b }
{
    match state {
        RouteState::Start => element_step(b, false),
        RouteState::Element => element_step(b, true),
        RouteState::Behind => behind_step(b),
        RouteState::SubDomain | RouteState::Over => None,
    }
}

fn atom_step(state: RouteState) -> Option<RouteState>
    ensures { result ≡ atom_step state }
{
    match state {
        RouteState::SubDomain => Some(RouteState::Behind),
        _ => None,
    }
}

// The state behind a token, where the route goes on over it. (A match on kinds of tokens, each with a step of its own; no caller chooses one.)
fn route_step(state: RouteState, kind: Kind) -> Option<RouteState>
    ensures { result ≡ route_step state kind }
{
    match kind {
        Kind::Atom => atom_step(state),
        Kind::Special(b) => special_step(state, b),
        _ => None,
    }
}

fn is_over(state: RouteState) -> bool
    ensures { result ≡ is_over state }
{
    matches!(state, RouteState::Over)
}

// A route from a token on: the token behind its colon; where none stands, the token where reading stopped.
fn skip_route(s: &[u8], first: Lexeme) -> Result<Lexeme, Lexeme>
    requires { Stands s.now first }
    ensures { ReadsRoute s.now (route (element false) (tokens_of s.now first)) result }
{
    let mut t = first;
    let mut state = RouteState::Start;
    // loop: a token says where the next one starts, and the state where the route ends
    loop {
        state = route_step(state, t.kind).ok_or(t)?;
        t = next_token(s, t.end);
        if is_over(state) {
            return Ok(t);
        }
    }
}

// The token behind a route, if one stands there: an addr-spec begins with a word, and a route does not. Else the token where reading stopped.
fn optional_route(s: &[u8], first: Lexeme) -> Result<Lexeme, Lexeme>
    requires { Stands s.now first }
    ensures { ReadsRoute s.now (optional_route (tokens_of s.now first)) result }
{
    if is_word(first.kind) {
        return Ok(first);
    }
    skip_route(s, first)
}

// The address behind `<` and a route, to behind its `>`; where it does not stand there, the token where reading stopped.
fn address_in(dst: &mut [u8], s: &[u8], first: Lexeme) -> Result<SpecRead, Lexeme>
    requires stands { Stands s.now first }
    requires s_in_bounds { length s.now ≤ length dst.old }
    ensures { ReadsSpec s.now (spec_text (closed_by (addr_spec (tokens_of s.now first)))) result dst.new }
{
    let a = addr_spec(dst, s, first)?;
    if !is_special(a.next.kind, b'>') {
        return Err(a.next);
    }
    let next = next_token(s, a.next.end);
    Ok(SpecRead { next, ..a })
}

// A route-addr from a token on; where none stands, the token where reading stopped.
pub fn route_addr(dst: &mut [u8], s: &[u8], first: Lexeme) -> Result<SpecRead, Lexeme>
    requires stands { Stands s.now first }
    requires s_in_bounds { length s.now ≤ length dst.old }
    ensures { ReadsSpec s.now (spec_text (route_addr (tokens_of s.now first))) result dst.new }
{
    if !is_special(first.kind, b'<') {
        return Err(first);
    }
    let inner = next_token(s, first.end);
    let t = optional_route(s, inner)?;
    address_in(dst, s, t)
}
