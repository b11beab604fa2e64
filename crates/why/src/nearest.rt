// The word that is meant where another stands.

// How many bytes two texts share at their start, capitals aside.
fn shared_start(a: &[u8], b: &[u8]) -> usize {
    a.iter()
        .zip(b.iter())
        .take_while(|(x, y)| x.eq_ignore_ascii_case(y))
        .count()
}

// How many they share at their end.
fn shared_end(a: &[u8], b: &[u8]) -> usize {
    a.iter()
        .rev()
        .zip(b.iter().rev())
        .take_while(|(x, y)| x.eq_ignore_ascii_case(y))
        .count()
}

// How many bytes the longer has that the other does not share with it at its start or end: 1 for one that is wrong, missing or too many.
fn distance(a: &[u8], b: &[u8]) -> usize {
    let start = shared_start(a, b);
    let end = shared_end(a, b);
    let shorter = a.len().min(b.len());
    let longer = a.len().max(b.len());
    let ends = end.min(shorter.saturating_sub(start));
    longer.saturating_sub(start).saturating_sub(ends)
}

// The form whose word, its first field, is nearest to this one, capitals aside. A near word shares something, and differs in two bytes at most.
pub(crate) fn nearest(forms: &[&'static str], word: &[u8]) -> Option<&'static str> {
    let mut found = None;
    let mut least_far = 3;
    for form in forms {
        let known = first_field(form);
        let far = distance(word, known.as_bytes());
        if far < least_far && far < known.len() {
            found = Some(*form);
            least_far = far;
        }
    }
    found
}

// The fields of a form are parted by spaces.
pub(crate) fn first_field(form: &str) -> &str {
    form.split(' ').next().unwrap_or_default()
}
