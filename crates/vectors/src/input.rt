// The standard input, which is read without the runtime: here `io` is the kit's crate, elsewhere std's module.

// As much of the input as there is room for.
pub fn read(file: &mut [u8]) -> &[u8] {
    let n = io::read_full(0, file);
    &file[..n]
}
