// Reading token trees, field by field in wire order.
ghost use Rattle.std.specs.Prelude.{◌≡◌};
ghost use Rattle.tree.specs.Reads.{group_at, tree_at};

use super::*;
use fault::{ByteFault, ByteWord};
use rpc::{Decode, Reader};
use token::kinds::*;

impl<St: Decode + Copy, Sp: Decode + Copy> Decode for Group<St, Sp> {
    ghost reads = { group_at St.Decode.reads Sp.Decode.reads };

    fn decode(reader: &mut Reader<'_>) -> Result<Group<St, Sp>, ByteFault> {
        Ok(Group {
            delimiter: Delimiter::decode(reader)?,
            stream: Option::<St>::decode(reader)?,
            span: DelimSpan::<Sp>::decode(reader)?,
        })
    }
}

impl<St: Decode + Copy, Sp: Decode + Copy, Sy: Decode + Copy> Decode for TokenTree<St, Sp, Sy> {
    ghost reads = { tree_at St.Decode.reads Sp.Decode.reads Sy.Decode.reads };

    fn decode(reader: &mut Reader<'_>) -> Result<TokenTree<St, Sp, Sy>, ByteFault> {
        let at = reader.at;
        match u8::decode(reader)? {
            0 => Ok(TokenTree::Group(Group::<St, Sp>::decode(reader)?)),
            1 => Ok(TokenTree::Punct(Punct::<Sp>::decode(reader)?)),
            2 => Ok(TokenTree::Ident(Ident::<Sp, Sy>::decode(reader)?)),
            3 => Ok(TokenTree::Literal(Literal::<Sp, Sy>::decode(reader)?)),
            _ => Err(ByteWord::Tag.at(at)),
        }
    }
}
