// Words of cases: `5*WORD` is five times the word.
use std::alloc::Global;

// How many times a word is meant, and which.
pub fn repeated(word: &str) -> anyhow::Result<(usize, &str)> {
    match word.split_once('*') {
        Some((times, once)) => Ok((times.parse::<usize>()?, once)),
        None => Ok((1, word)),
    }
}

// What words stand for, each as often as it is meant.
pub fn values_of<T: Copy, F: Fn(&str) -> anyhow::Result<T>>(
    heap: Global,
    words: &[&str],
    value_of: F,
) -> anyhow::Result<Vec<T>>
    requires { F.IsAlwaysCallable value_of }
{
    let mut values = Vec::new(heap);
    for word in words {
        let (times, once) = repeated(word)?;
        let copies = vec![in heap; value_of(once)?; times]?;
        values.extend_from_slice(copies.as_slice())?;
    }
    Ok(values)
}
