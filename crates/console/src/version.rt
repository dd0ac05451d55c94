/// The version of the program, and the sum (SHA-256) over the files that it is built from, all but this one. `run/ship`
/// writes it.
pub(crate) const VERSION: &str =
    "0.1.0 (sources 1a7978f595d64aee4328b71c24ad826e0f605ec72ae4e4a71dc47489428bd879)";
