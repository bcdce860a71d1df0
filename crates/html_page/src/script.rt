//! The script of the page: a search in the rows, links that unfold their targets, and printing with definitions. The page is
//! complete without it.

/// It has no `<`, so that no tag begins in it.
pub const SCRIPT: &[u8] = b"
'use strict';
const at=id=>document.getElementById(id);
const field=at('search'),found=at('found'),texts=at('texts'),withdrawn=at('withdrawn');
const bodies=[at('rows'),at('gone')].filter(body=>body);
const letters={'\\u00df':'ss','\\u00e6':'ae','\\u0153':'oe','\\u00f8':'o','\\u0142':'l','\\u0111':'d','\\u00f0':'d','\\u00fe':'th','\\u0131':'i','\\u0127':'h','\\u014b':'n'};
const plain=text=>text.toLowerCase().normalize('NFD').replace(/\\p{M}/gu,'').replace(/[\\u00df\\u00e6\\u0153\\u00f8\\u0142\\u0111\\u00f0\\u00fe\\u0131\\u0127\\u014b]/g,letter=>letters[letter]);
const text=row=>plain([row.cells[0].textContent,row.querySelector('summary').textContent,...[...row.querySelectorAll('p')].map(p=>p.textContent),row.cells[2].textContent,row.cells[3].textContent].join(' '));
let rows=null;
const search=()=>{
rows=rows||bodies.flatMap(body=>[...body.rows].map(row=>({row,body,id:row.id.toLowerCase(),text:text(row)})));
const words=plain(field.value).split(/[ \\t]+/).filter(word=>word);
let count=0,gone=0;
for(const each of rows){
const hidden=!words.every(word=>each.text.includes(word)||each.id.startsWith(word));
if(!hidden)count+=1;
if(!hidden&&each.body.id==='gone')gone+=1;
if(each.row.hidden!==hidden)each.row.hidden=hidden;
}
if(withdrawn)withdrawn.open=words.length!==0&&gone!==0;
found.textContent=words.length?count+' of '+rows.length+' entries':'';
};
const named=()=>{
const hash=location.hash.slice(1);
try{return decodeURIComponent(hash)}catch(_){return hash}
};
const unfold=()=>{
const name=named();
if(!name)return;
for(const one of document.querySelectorAll('.aim'))one.classList.remove('aim');
const heading=at(name);
if(heading&&heading.matches('h3')){
heading.scrollIntoView();
return;
}
const all=bodies.flatMap(body=>[...body.rows]);
const row=all.find(row=>row.id===name)||all.find(row=>row.cells[0].textContent===name);
if(!row)return;
if(withdrawn&&withdrawn.contains(row))withdrawn.open=true;
row.hidden=false;
row.querySelector('details').open=true;
row.classList.add('aim');
row.scrollIntoView();
requestAnimationFrame(()=>row.scrollIntoView());
};
let opened=[];
addEventListener('beforeprint',()=>{
if(!texts.checked)return;
opened=[...document.querySelectorAll('details:not([open])')];
for(const one of opened)one.open=true;
});
addEventListener('afterprint',()=>{
for(const one of opened)one.open=false;
opened=[];
});
at('searching').hidden=false;
at('printing').hidden=false;
field.addEventListener('input',search);
addEventListener('hashchange',unfold);
if(field.value)search();
unfold();
";
