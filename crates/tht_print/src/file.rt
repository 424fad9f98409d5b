// The text of a file.
ghost use Rattle.std.specs.Prelude.{◌≡◌, ◌++◌, ◌∷◌, [], string_bytes, IfOk, OnOk};
ghost use Rattle.tht_tree.specs.declared.token.TokenKind.TheVariants as k;
ghost use Rattle.tht_tree.specs.Layout as layout;

use crate::decl::{decl, main_command};
use crate::text::write_lines;
use crate::tokens::Tokens;
use std::alloc::{AllocError, Global};
use tht_tree::decl::Decl;
use tht_tree::file::{Main, Source1};
use tht_tree::plain::Memory;
use tht_tree::token::TokenKind;

/// The text of a file in its layout: tokens with one space between them, and a line feed after the version, after every `;`
/// and after each declaration and main. It is as long as its tokens, whatever their number, so only memory can run out.
pub fn print(alloc: Global, file: &Source1) -> Result<Vec<u8>, Memory>
    ensures { IfOk result (λ bytes. bytes.items ≡ layout.layout file.now) }
{
    match file_text(alloc, file) {
        Ok(text) => Ok(text.into_bytes()),
        Err(_) => Err(Memory),
    }
}

fn file_text(alloc: Global, file: &Source1) -> Result<String, AllocError>
    ensures { IfOk result (λ text. string_bytes text ≡ layout.layout file.now) }
{
    let mut text = String::new(alloc);
    write_version(alloc, file.version, &mut text)?;
    write_decls(alloc, file.decls.as_slice(), &mut text)?;
    write_main(alloc, &file.main, &mut text)?;
    Ok(text)
}

fn write_version(alloc: Global, version: u32, text: &mut String) -> Result<(), AllocError>
    ensures { OnOk result (string_bytes text.new ≡ string_bytes text.old ++ layout.lines (layout.◌▹◌ k.Tht (layout.number version ∷ []))) }
{
    let mut tokens = Tokens::new(alloc);
    tokens.number(u128::from(version))?;
    tokens.word(TokenKind::Tht)?;
    write_lines(tokens, text)
}

fn write_decls(alloc: Global, decls: &[Decl], text: &mut String) -> Result<(), AllocError>
    ensures { OnOk result (string_bytes text.new ≡ string_bytes text.old ++ layout.decl_lines decls.now) }
{
    for d in decls {
        let mut tokens = Tokens::new(alloc);
        decl(&d.kind, &mut tokens)?;
        write_lines(tokens, text)?;
    }
    Ok(())
}

fn write_main(alloc: Global, main: &Main, text: &mut String) -> Result<(), AllocError>
    ensures { OnOk result (string_bytes text.new ≡ string_bytes text.old ++ layout.lines (layout.main main.now [])) }
{
    let mut tokens = Tokens::new(alloc);
    main_command(main, &mut tokens)?;
    write_lines(tokens, text)
}
