// Files that are read, copied and compared: what a copy equals, and that places do not count.
use std::alloc::{AllocError, Global};
use std::test::Fail;
use tht_parse::parse;
use tht_tree::file::Source1;
use tht_tree::plain::Memory;
use tree_copies::{copy_file, same_tree};

const FILE: &str = "tht 1
pred p (x : loc) = exists n : nat . x -> n * either [n = 5] or emp;
root a : nat := 4;
main r : nat { emp } {
  have h : 1 = 1 by refl;
  x <- alloc (5, null);
  free x at 1 by refl;
  ret x by @2 * emp
}
";

/// The same tokens in other places.
const ELSEWHERE: &str = "# a comment
tht 1 pred p (x : loc) = exists n : nat .
x -> n * either [n = 5] or emp; root a : nat := 4; main r : nat { emp } { have h : 1 = 1 by refl;
x <- alloc (5, null); free x at 1 by refl; ret x by @2 * emp }
";

/// Another number in the last statement.
const OTHER: &str = "tht 1
pred p (x : loc) = exists n : nat . x -> n * either [n = 5] or emp;
root a : nat := 4;
main r : nat { emp } {
  have h : 1 = 1 by refl;
  x <- alloc (5, null);
  free x at 3 by refl;
  ret x by @2 * emp
}
";

fn no_memory(_: Memory) -> AllocError {
    AllocError
}

fn is_same_as_its_copy(alloc: Global, file: &Source1) -> Result<bool, AllocError> {
    let copy = copy_file(alloc, file).map_err(no_memory)?;
    Ok(same_tree(file, &copy) && copy.main.spot == file.main.spot)
}

/// Whether the text, which is no longer than a source, is read, and is the same tree as the file.
fn is_read_as(alloc: Global, text: &str, file: &Source1) -> bool {
    let bytes = text.as_bytes();
    if bytes.len() > 1_048_576 {
        return false;
    }
    match parse(alloc, bytes) {
        Ok(other) => same_tree(&other, file),
        Err(_) => false,
    }
}

#[test]
fn files_are_the_same_wherever_they_stand(rt: HostRuntime) -> Result<(), Fail> {
    match parse(rt.alloc(), FILE.as_bytes()) {
        Ok(file) => {
            assert!(rt; is_same_as_its_copy(rt.alloc(), &file)?);
            assert!(rt; is_read_as(rt.alloc(), ELSEWHERE, &file));
            assert!(rt; !is_read_as(rt.alloc(), OTHER, &file));
        }
        Err(end) => assert_eq!(rt; Some(end), None),
    }
    Ok(())
}
