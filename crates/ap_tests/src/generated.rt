use ap_text_commands::program_of;

/// The last line of a text, with its end.
fn last_line(text: &[u8]) -> &[u8] {
    let front = text.get(..text.len().saturating_sub(1)).unwrap_or(&[]);
    match front.iter().rposition(|byte| *byte == b'\n') {
        Some(place) => text.get(place.saturating_add(1)..).unwrap_or(&[]),
        None => text,
    }
}

#[test]
fn small_seeds_ask_for_their_terms(rt: HostRuntime) {
    let alloc = rt.alloc();
    let first = b"?- subst(M,a,var(b),lam(c\\lam(c\\lam(b\\var(b))))).\n";
    assert!(rt;
        matches!(&program_of(alloc, 1, 1), Ok(text) if last_line(text) == first.as_slice())
    );
    let second = b"?- subst(M,a,var(b),app(app(var(b),app(var(c),var(d))),var(c))).\n";
    assert!(rt;
        matches!(&program_of(alloc, 2, 1), Ok(text) if last_line(text) == second.as_slice())
    );
}
