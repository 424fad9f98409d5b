// Copies of files, and their comparison but for spots.
ghost use Rattle.std.specs.Prelude.{◌≡◌, ◌↔◌, map, IfOk, IsTrue};
ghost use Rattle.tht_tree.specs.WithoutSpots.{bare_decl, bare_main, without_spots};

use crate::body::{copy as copy_body, same as same_body};
use crate::decl::{copy_decl, same_decl};
use sqlite_items::Items;
use std::alloc::{AllocError, Global};
use tht_tree::assn::{copy_assn, same_assn};
use tht_tree::decl::Decl;
use tht_tree::file::{Main, Source1};
use tht_tree::plain::Memory;

/// An equal file, with all its spots.
pub fn copy_file(alloc: Global, file: &Source1) -> Result<Source1, Memory>
    ensures { IfOk result (λ copy. copy ≡ file.now) }
{
    let decls = copy_decls(alloc, &file.decls)?;
    let main = copy_main(alloc, &file.main)?;
    Ok(Source1 {
        version: file.version,
        decls,
        main,
    })
}

fn copy_decls(alloc: Global, decls: &Items<Decl>) -> Result<Items<Decl>, AllocError>
    ensures { IfOk result (λ ds. ds ≡ decls.now) }
{
    let mut copies = Items::new(alloc);
    for decl in decls.as_slice() {
        copies.push(copy_decl(alloc, decl)?)?;
    }
    Ok(copies)
}

fn copy_main(alloc: Global, main: &Main) -> Result<Main, AllocError>
    ensures { IfOk result (λ m. m ≡ main.now) }
{
    let result = main.result.copy()?;
    let post = copy_assn(alloc, &main.post)?;
    let body = copy_body(alloc, &main.body)?;
    Ok(Main {
        spot: main.spot,
        result,
        sort: main.sort,
        post,
        body,
    })
}

/// Whether the two files are the same tree but for the spots of their parts.
pub fn same_tree(file: &Source1, other: &Source1) -> bool
    ensures { IsTrue result ↔ (without_spots file.now ≡ without_spots other.now) }
{
    file.version == other.version
        && same_decls(&file.decls, &other.decls)
        && same_main(&file.main, &other.main)
}

fn same_decls(decls: &Items<Decl>, others: &Items<Decl>) -> bool
    ensures { IsTrue result ↔ (map bare_decl decls.now ≡ map bare_decl others.now) }
{
    if decls.len() != others.len() {
        return false;
    }
    for (decl, other) in decls.as_slice().iter().zip(others.as_slice().iter()) {
        if !same_decl(decl, other) {
            return false;
        }
    }
    true
}

fn same_main(main: &Main, other: &Main) -> bool
    ensures { IsTrue result ↔ (bare_main main.now ≡ bare_main other.now) }
{
    main.result.same(&other.result)
        && main.sort == other.sort
        && same_assn(&main.post, &other.post)
        && same_body(&main.body, &other.body)
}
