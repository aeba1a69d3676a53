//! Names that are not the same but for case.

ghost use Rattle.std.specs.Prelude.{◌≡◌, is_some, not, map};
ghost use Rattle.std.specs.List.{list_any};
ghost use Rattle.std.specs.Str.{str_eq_ignore_ascii_case};
ghost use Rattle.esc_table_files.specs.Apart.{are_apart};

fn is_repeated(name: &str, names: &[&str]) -> bool
    ensures { result ≡ list_any (λ n. str_eq_ignore_ascii_case name.now n.now) names.now }
{
    names.iter().any(|other| name.eq_ignore_ascii_case(other))
}

/// The first of these names that is the same as a later one but for the case of ASCII letters;
/// `None` if there is none.
pub fn repeated<'a>(names: &[&'a str]) -> Option<&'a str>
    ensures { is_some result ≡ not (are_apart (map (λ n. n.now) names.now)) }
{
    for at in 0..names.len() {
        if let Some((name, later)) = names[at..].split_first() {
            if is_repeated(name, later) {
                return Some(name);
            }
        }
    }
    None
}
