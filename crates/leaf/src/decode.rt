// Reading the leaves of token trees, field by field in wire order.
ghost use Rattle.std.specs.Prelude.{◌≡◌};
ghost use Rattle.leaf.specs.Reads.{punct_at, ident_at, literal_at};

use super::*;
use fault::ByteFault;
use rpc::{Decode, Reader};
use token::kinds::*;

impl<Sp: Decode + Copy> Decode for Punct<Sp> {
    ghost reads = { punct_at Sp.Decode.reads };

    fn decode(reader: &mut Reader<'_>) -> Result<Punct<Sp>, ByteFault> {
        Ok(Punct {
            ch: u8::decode(reader)?,
            joint: bool::decode(reader)?,
            span: Sp::decode(reader)?,
        })
    }
}

impl<Sp: Decode + Copy, Sy: Decode + Copy> Decode for Ident<Sp, Sy> {
    ghost reads = { ident_at Sp.Decode.reads Sy.Decode.reads };

    fn decode(reader: &mut Reader<'_>) -> Result<Ident<Sp, Sy>, ByteFault> {
        Ok(Ident {
            sym: Sy::decode(reader)?,
            is_raw: bool::decode(reader)?,
            span: Sp::decode(reader)?,
        })
    }
}

impl<Sp: Decode + Copy, Sy: Decode + Copy> Decode for Literal<Sp, Sy> {
    ghost reads = { literal_at Sp.Decode.reads Sy.Decode.reads };

    fn decode(reader: &mut Reader<'_>) -> Result<Literal<Sp, Sy>, ByteFault> {
        Ok(Literal {
            kind: LitKind::decode(reader)?,
            symbol: Sy::decode(reader)?,
            suffix: Option::<Sy>::decode(reader)?,
            span: Sp::decode(reader)?,
        })
    }
}
