// The way of a record out.
ghost use Rattle.std.specs.Prelude.{◌+◌, ◌≤◌, length};
ghost use Rattle.oraddr.specs.Bounds.{level_count};
ghost use Rattle.table.specs.Lines.{longest_gateway_domain};

// How a record goes out: the domain that it is put under, a row's or the gateway's, and the levels in front of that domain, `more` of
// them behind the first `own`.
#[derive(Clone, Copy)]
pub struct Route<'a> {
    pub domain: &'a [u8],
    pub own: usize,
    pub more: usize,
    pub ghost short: { length domain.now ≤ longest_gateway_domain },
    pub ghost few: { own + more ≤ level_count },
}
