//! Worked texts, which the check computes from the definitions alone.
ghost use Rattle.std.specs.Prelude.{◌≡◌, Err, Ok, codes, false, true};
ghost use Rattle.xp_catalog.specs.Contents.{added, first_contents};
ghost use Rattle.xp_catalog.specs.declared.record.Record.TheVariants as row;
ghost use Rattle.xp_catalog.specs.declared.why.CatFault.TheVariants as fault;
ghost use Rattle.xp_catalog.specs.declared.why.Why.TheVariants as why;
ghost use Rattle.xp_loader.specs.Loading.{load_catalog};

/// What some texts are as catalogues. It does nothing: its contract shows what the definitions say.
pub fn worked_texts()
    ensures one { load_catalog (codes "\n\"type\",int4,N,f\r\n") ≡ Ok (added first_contents (row.Plain (codes "int4") 78 false 1)) }
    ensures kind { load_catalog (codes "type,int4,N,f\n\nview,x\n") ≡ Err (fault.Row 2 why.BadKind) }
    ensures name { load_catalog (codes "type,int4,N,f\ntype,Text,A,yes\n") ≡ Err (fault.Row 2 why.BadName) }
    ensures unknown { load_catalog (codes "type,int4,N,f\ndomain,int4,text,f,\n") ≡ Err (fault.Row 2 why.UnknownType) }
    ensures duplicate { load_catalog (codes "type,int4,N,f\nrange,int4,int4\n") ≡ Err (fault.Row 2 why.Duplicate) }
    ensures arguments { load_catalog (codes "type,int4,N,f\ncast,int4,int4[],explicit,binary\n") ≡ Err (fault.Row 2 why.BadArgs) }
    ensures body { load_catalog (codes "type,int4,N,f\nfunction,f,int4,f,int4,immutable,t,neg_int8\n") ≡ Err (fault.Row 2 why.BodyMismatch) }
{}
