// The five calls as a host links them: the static library liblang_ast_c.a, which hosts get as liblang_ast.a.
//
// They repeat lang_ast's, since a crate is a library or a static library and not both (docs/DECISIONS.md, D115): each
// is the call of that name there, with its promises word for word. The symbols are exported here, and what is proved of
// every list of calls stands there (lang_ast/proofs/Calls.antt).
#![tactic(auto)]

ghost use Rattle.std.specs.Prelude.{◌≡◌, length};
ghost use Rattle.spec.specs.Calls.{ask_reference, ask_name, change_reference, change_name};
ghost use Rattle.replies.specs.Replies.{returned, reply_after, buffer_after, load_outcome};
ghost use Rattle.requests.specs.Requests as requests;
ghost use Rattle.requests.specs.Requests.{outcome_in};
ghost use Rattle.load.specs.Loads as loads;
ghost use Rattle.load.specs.Loads.{judged_in};

// Loads a sheet. The refusal's number is returned, 0 for none; a refusal leaves the store as it was.
#[unsafe(no_mangle)]
pub extern "C" fn lang_ast_load(sheet: &[u8], store: &mut [u8], reply: &mut [u8]) -> u32
    ensures value { result ≡ returned (load_outcome (judged_in sheet.now store.old reply.old)) }
    ensures reply_after { reply.new ≡ reply_after (load_outcome (judged_in sheet.now store.old reply.old)) reply.old }
    ensures leaves { loads.Leaves (judged_in sheet.now store.old reply.old) store.old store.new }
{
    lang_ast::lang_ast_load(sheet, store, reply)
}

// What a Reference means; the Withs of an answer 3 come into the buffer.
#[unsafe(no_mangle)]
pub extern "C" fn lang_ast_ask_reference(
    store: &[u8],
    number: u32,
    buffer: &mut [u8],
    reply: &mut [u8],
) -> u32
    ensures value { result ≡ returned (outcome_in store.now (ask_reference number (length buffer.old) (length reply.old))) }
    ensures buffer_after { buffer.new ≡ buffer_after (outcome_in store.now (ask_reference number (length buffer.old) (length reply.old))) buffer.old }
    ensures reply_after { reply.new ≡ reply_after (outcome_in store.now (ask_reference number (length buffer.old) (length reply.old))) reply.old }
{
    lang_ast::lang_ast_ask_reference(store, number, buffer, reply)
}

// The References that mean a name, in ascending order, come into the buffer.
#[unsafe(no_mangle)]
pub extern "C" fn lang_ast_ask_name(
    store: &[u8],
    number: u32,
    buffer: &mut [u8],
    reply: &mut [u8],
) -> u32
    ensures value { result ≡ returned (outcome_in store.now (ask_name number (length buffer.old) (length reply.old))) }
    ensures buffer_after { buffer.new ≡ buffer_after (outcome_in store.now (ask_name number (length buffer.old) (length reply.old))) buffer.old }
    ensures reply_after { reply.new ≡ reply_after (outcome_in store.now (ask_name number (length buffer.old) (length reply.old))) reply.old }
{
    lang_ast::lang_ast_ask_name(store, number, buffer, reply)
}

// A Reference gets another text; it comes into the buffer if it means something else then.
#[unsafe(no_mangle)]
pub extern "C" fn lang_ast_change_reference(
    store: &mut [u8],
    number: u32,
    text: &[u8],
    moved: &mut [u8],
    reply: &mut [u8],
) -> u32
    ensures value { result ≡ returned (outcome_in store.old (change_reference number text.now (length moved.old) (length reply.old))) }
    ensures moved_after { moved.new ≡ buffer_after (outcome_in store.old (change_reference number text.now (length moved.old) (length reply.old))) moved.old }
    ensures reply_after { reply.new ≡ reply_after (outcome_in store.old (change_reference number text.now (length moved.old) (length reply.old))) reply.old }
    ensures leaves { requests.Leaves (change_reference number text.now (length moved.old) (length reply.old)) store.old store.new }
{
    lang_ast::lang_ast_change_reference(store, number, text, moved, reply)
}

// A name gets another text; the References that mean something else then come into the buffer, in ascending order.
#[unsafe(no_mangle)]
pub extern "C" fn lang_ast_change_name(
    store: &mut [u8],
    number: u32,
    text: &[u8],
    moved: &mut [u8],
    reply: &mut [u8],
) -> u32
    ensures value { result ≡ returned (outcome_in store.old (change_name number text.now (length moved.old) (length reply.old))) }
    ensures moved_after { moved.new ≡ buffer_after (outcome_in store.old (change_name number text.now (length moved.old) (length reply.old))) moved.old }
    ensures reply_after { reply.new ≡ reply_after (outcome_in store.old (change_name number text.now (length moved.old) (length reply.old))) reply.old }
    ensures leaves { requests.Leaves (change_name number text.now (length moved.old) (length reply.old)) store.old store.new }
{
    lang_ast::lang_ast_change_name(store, number, text, moved, reply)
}
